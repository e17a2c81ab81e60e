// The least and greatest figures of a leaf's traces on a run of samples, or of one side of them. Each trace has a mark, and a side is the
// traces with one mark.

ghost use Rattle.std.specs.Prelude.{◌≡◌, Some, length, if◌then◌else◌};
ghost use Rattle.dstree.specs.Figures.{run, sum_on, scatter_on};
ghost use Rattle.dstree.specs.Adding.{segment_of};
ghost use Rattle.dstree.specs.Measures.{most_traces};
ghost use Rattle.tables.specs.View.{trace_in};
ghost use Rattle.tables.specs.Runs.{RunOfTrace, Inside};
ghost use Rattle.leaf_figures.specs.Sides.{IsStored, side_traces, with_figures, or_none, SmallFigures, segment_by};

use crate::stored::StoredLeaf;
use crate::table::Run;
use segment::Word;
use tables::runs::{figures_on, trace_at};
use tables::walk::behind;

// The figures of no trace are 0.
#[derive(Clone, Copy, PartialEq, Eq)]
pub struct SideRange {
    pub least_sum: i64,
    pub greatest_sum: i64,
    pub least_scatter: u64,
    pub greatest_scatter: u64,
}

// The figures where no trace was taken.
pub const NO_TRACE: SideRange = SideRange {
    least_sum: 0,
    greatest_sum: 0,
    least_scatter: 0,
    greatest_scatter: 0,
};

// One trace's figures more than those of the traces so far, if there were any.
pub fn widened(so_far: Option<SideRange>, sum: i64, scatter: u64) -> SideRange
    ensures { result ≡ with_figures so_far sum scatter }
{
    match so_far {
        Some(f) => SideRange {
            least_sum: f.least_sum.min(sum),
            greatest_sum: sum.max(f.greatest_sum),
            least_scatter: f.least_scatter.min(scatter),
            greatest_scatter: f.greatest_scatter.max(scatter),
        },
        None => SideRange {
            least_sum: sum,
            greatest_sum: sum,
            least_scatter: scatter,
            greatest_scatter: scatter,
        },
    }
}

// Trace t's figures more, if it is on the side.
fn with_trace(
    samples: &[Word],
    n: usize,
    t: usize,
    on: Run,
    on_side: bool,
    so_far: Option<SideRange>,
) -> Option<SideRange>
    requires { RunOfTrace samples.now n t on.first on.last × SmallFigures (or_none so_far) }
    ensures value { result ≡ (if on_side then Some (with_figures so_far (sum_on (run on.first on.last) (trace_in samples.now n t))
        (scatter_on (run on.first on.last) (trace_in samples.now n t))) else so_far) }
    ensures small { SmallFigures (or_none result) }
{
    if !on_side {
        return so_far;
    }
    let own = figures_on(trace_at(samples, n, t), on.first, on.last);
    Some(widened(so_far, own.sum, own.scatter))
}

// The figures of the leaf's traces with a mark. A walk that leaves its last trace out does not meet this.
pub fn side_figures(leaf: StoredLeaf, marks: &[u8; 4096], mark: u8, on: Run) -> SideRange
    requires { IsStored leaf × Inside leaf.n on.first on.last × (length marks.now ≡ most_traces) }
    ensures result_value { segment_by on.last result ≡ segment_of (side_traces leaf.entry marks.now mark) (run on.first on.last) }
    ensures small { SmallFigures result }
{
    let mut f: Option<SideRange> = None;
    let mut t = leaf.head;
    while t < leaf.k {
        f = with_trace(leaf.samples, leaf.n, t, on, marks[t] == mark, f);
        t = behind(leaf.links, leaf.k, t);
    }
    f.unwrap_or(NO_TRACE)
}
