// A trace's sums over its first samples, from which its figures on any run follow without a look at the samples.
#![tactic(auto)]

ghost use Rattle.std.specs.Prelude.{◌≡◌, ◌+◌, ◌≤◌, nat_abs, ◌+ℤ◌, length};
ghost use Rattle.integer.specs.Words.{square};
ghost use Rattle.segment.specs.Limits.{sum_limit, scatter_limit, total_room};
ghost use Rattle.segment.specs.Stored.{sample_of, samples_of};
ghost use Rattle.dstree.specs.Measures.{sample_limit, most_samples};
ghost use Rattle.dstree.specs.Figures.{run, width, sum_on, scatter_on};
ghost use Rattle.tables.specs.Runs.{Inside};
ghost use Rattle.prefixes.specs.Prefixes.{Prefixes};

use segment::Word;
use segment::figures::Figures;
use segment::samples::sample_of;

// A sum and one word's sample more.
fn with_sample(sum: i64, word: Word) -> i64
    requires { nat_abs sum ≤ total_room }
    ensures { result ≡ sum +ℤ sample_of word }
{
    sum + i64::from(sample_of(word))
}

// A sum of squares and one sample's more.
fn with_square(squares: u64, word: Word) -> u64
    requires { squares ≤ total_room }
    ensures { result ≡ squares + square (sample_of word) }
{
    squares + segment::figures::square(i64::from(sample_of(word)))
}

// The sum and the sum of squares of the first i samples, at place i, from none of them to all. Sums that start at 1 do not meet this.
pub fn prefix_sums(trace: &[Word], sums: &mut [i64; 257], squares: &mut [u64; 257])
    requires { length trace.now ≤ most_samples }
    ensures { Prefixes (samples_of trace.now) sums.new squares.new }
{
    sums[0] = 0;
    squares[0] = 0;
    for (i, word) in trace.iter().enumerate() {
        sums[i + 1] = with_sample(sums[i], *word);
        squares[i + 1] = with_square(squares[i], *word);
    }
}

// A trace with its sums over its first samples: what is worked out once for a query or a new trace, and asked at every node.
#[derive(Drop)]
pub struct Summed<'a> {
    pub trace: &'a [Word],
    pub sums: &'a [i64; 257],
    pub squares: &'a [u64; 257],
    pub ghost summed: { Prefixes (samples_of trace.now) sums.now squares.now },
}

impl<'a> Summed<'a> {
    // The samples are looked at once, here. The arrays are lent, and their contents do not matter. By value they would be copied, and a match
    // in few traces would take half as long again.
    pub fn of(
        trace: &'a [Word],
        sums: &'a mut [i64; 257],
        squares: &'a mut [u64; 257],
    ) -> Summed<'a>
        requires { length trace.now ≤ most_samples }
        ensures { result.trace.now ≡ trace.now }
    {
        prefix_sums(trace, sums, squares);
        Summed {
            trace,
            sums,
            squares,
        }
    }

    // The figures on the samples `first` to `last`. The trace is not read.
    pub fn figures_on(&self, first: usize, last: usize) -> Figures
        requires { Inside (length self.now.trace.now) first last }
        ensures sum { result.sum ≡ sum_on (run first last) (samples_of self.now.trace.now) }
        ensures scatter { result.scatter ≡ scatter_on (run first last) (samples_of self.now.trace.now) }
        ensures size { (nat_abs result.sum ≤ sum_limit sample_limit (width (run first last)))
            × (result.scatter ≤ scatter_limit sample_limit (width (run first last))) }
    {
        let before = first - 1;
        let sum = self.sums[last] - self.sums[before];
        let total = self.squares[last] - self.squares[before];
        let w = (last - before) as u64;
        Figures {
            sum,
            scatter: segment::figures::scatter_from(w, sum, total),
        }
    }
}
