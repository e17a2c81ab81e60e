// A stored trace as a part of the samples, and a trace's figures on a run of its samples, which are numbered from 1. Nothing else computes
// where a trace lies, or where a run does.

ghost use Rattle.std.specs.Prelude.{◌≡◌, ◌+◌, ◌*◌, ◌≤◌, pos, nat_abs, ◌*ℤ◌, length, if◌then◌else◌};
ghost use Rattle.std.specs.Int.Signed.{le_z};
ghost use Rattle.segment.specs.Roots.{floor_root};
ghost use Rattle.segment.specs.Stored.{samples_of};
ghost use Rattle.segment.specs.Limits.{sum_most, scatter_most, sum_room};
ghost use Rattle.dstree.specs.Figures.{run, sum_on, scatter_on};
ghost use Rattle.dstree.specs.Node.{sends_left};
ghost use Rattle.dstree.specs.Measures.{most_samples};
ghost use Rattle.tables.specs.View.{trace_in};
ghost use Rattle.tables.specs.Runs.{test_by, RunOf};

use segment::Word;

// Trace t, as the words that hold it.
pub fn trace_at(samples: &[Word], n: usize, t: usize) -> &[Word]
    requires { t * n + n ≤ length samples.now }
    ensures { samples_of result.now ≡ trace_in samples.now n t }
{
    let a = t * n;
    let e = a + n;
    &samples[a..e]
}

// Both figures on the samples `first` to `last`.
pub fn figures_on(trace: &[Word], first: usize, last: usize) -> segment::figures::Figures
    requires { RunOf (length trace.now) first last }
    ensures sum { (result.sum ≡ sum_on (run first last) (samples_of trace.now)) × (nat_abs result.sum ≤ sum_most most_samples) }
    ensures scatter { (result.scatter ≡ scatter_on (run first last) (samples_of trace.now))
        × (result.scatter ≤ scatter_most most_samples) }
{
    let before = first - 1;
    segment::figures::figures_of(&trace[before..last])
}

// Whether a trace with these figures on a test's run goes left: by sum, if twice the sum is at most the threshold; by scatter, if twice the
// scatter's floor root is, for which no root is taken. What is equal to half of the threshold goes left. The way down, the sides of a split
// and the marks all go by this.
pub fn is_left(sum: i64, scatter: u64, by_scatter: bool, threshold: i64) -> bool
    requires { nat_abs sum ≤ sum_room }
    ensures { result ≡ le_z (pos 2 *ℤ (if by_scatter then pos (floor_root scatter) else sum)) threshold }
{
    if by_scatter {
        return segment_bound::roots::twice_root_within(scatter, threshold);
    }
    2 * sum <= threshold
}

// Whether a trace goes left by a test.
pub fn goes_left(
    trace: &[Word],
    first: usize,
    last: usize,
    by_scatter: bool,
    threshold: i64,
) -> bool
    requires { RunOf (length trace.now) first last }
    ensures { result ≡ sends_left (test_by first last by_scatter threshold) (samples_of trace.now) }
{
    let own = figures_on(trace, first, last);
    is_left(own.sum, own.scatter, by_scatter, threshold)
}
