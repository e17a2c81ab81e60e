// The winning trace, handed back as part of the table that it lies in.

ghost use Rattle.std.specs.Prelude.{◌≡◌};
ghost use Rattle.pairing.specs.Parts.{lent_part, stored_part, part_by};

use crate::Paired;
use pair_search::turns::Whose;
use segment::Word;
use tables::Refusal;

// Trace number `trace` of a table of traces of n words; an empty part where the table does not hold all of it.
fn stored_part<'a>(samples: &'a [Word], n: usize, trace: usize) -> &'a [Word]
    ensures { lent_part result ≡ stored_part (lent_part samples.entry) n trace }
{
    if n == 0 {
        return &samples[..0];
    }
    if samples.len() / n <= trace {
        return &samples[..0];
    }
    let from = trace * n;
    &samples[from..from + n]
}

// The winning trace of n words in the table of its library; of a refusal the factory's first 0 words.
//
// Two wrong programs that the contract rules out: one that hands back equal words of the other library, and one that hands back a copy.
pub fn won_part<'a>(
    samples: &'a [Word],
    bench_samples: &'a [Word],
    n: usize,
    found: Result<Paired, Refusal>,
) -> &'a [Word]
    ensures { lent_part result ≡ part_by found (lent_part samples.entry) (lent_part bench_samples.entry) n }
{
    match found {
        Ok(paired) => match paired.library {
            Whose::Factory => stored_part(samples, n, paired.trace as usize),
            Whose::Bench => stored_part(bench_samples, n, paired.trace as usize),
        },
        Err(_why) => &samples[..0],
    }
}
