// Exporting a stored trace as a recording.
#![tactic(auto)]

pub mod judging; // what exporting refuses

ghost use Rattle.std.specs.Prelude.{◌≡◌, [], ◌∷◌};
ghost use Rattle.dstree.specs.Book.{exporting};
ghost use Rattle.tables.specs.Lent.{tables_before};
ghost use Rattle.calls.specs.Outcome.{outcome};
ghost use Rattle.calls.specs.Effects.{outcome_on};
ghost use Rattle.exporting.specs.Answered.{answer_by};

use recording::writing::write_recording;
use segment::Word;
use tables::Refusal;
use tables::control::field;
use tables::lent::Lent;
use tables::numbers::wide;
use tables::places::N;
use tables::runs::trace_at;

// Writes a stored trace as a recording, at a rate, to the buffer's first places, and answers the number of bytes. Every refusal is decided
// before anything is written. All six tables are lent only to be read and to be long enough: they stay as they were.
//
// Two wrong programs that the contract rules out: one that says the number of samples for the number of bytes, and one that cuts a sample
// beyond 16 bits to its low ones.
pub fn export_recording(
    control: &[u16],
    samples: &[Word],
    nodes: &[i64],
    links: &[u16],
    work: &[u64],
    labels: &[u64],
    buffer: &mut [u8],
    number: u64,
    rate: u64,
) -> Result<u64, Refusal>
    ensures { outcome (answer_by result buffer.new)
        (tables_before control samples nodes links work labels)
        (buffer.new ∷ [])
        ≡ outcome_on (exporting number rate buffer.old)
        (tables_before control samples nodes links work labels) }
{
    let lent = Lent {
        control,
        samples,
        nodes,
        links,
        work,
        labels,
    };
    judging::judge(lent, buffer, number, rate)?;
    let n = wide(field(control, N));
    let trace = trace_at(samples, n, number as usize);
    write_recording(buffer, rate, trace);
    Ok(44 + 2 * n as u64)
}
