// The sides that a test parts the traces of a list into, as lists.

ghost use Rattle.std.specs.Prelude.{◌≡◌, ◌≤◌, length, take, IfSome};
ghost use Rattle.dstree.specs.Measures.{most_traces};
ghost use Rattle.dstree.specs.Node.{sends_left};
ghost use Rattle.tables.specs.View.{trace_in};
ghost use Rattle.tables.specs.Runs.{Inside, RunOfTrace};
ghost use Rattle.leaf_figures.specs.Rows.{RowOf};
ghost use Rattle.candidate.specs.Siding.{trial_test, side_of};

use leaf_figures::rows::{Rows, figures_at};
use leaf_figures::table::Run;
use segment::Word;
use segment::figures::Figures;
use tables::runs::is_left;

// A candidate: a run, its figure (a flag, as `tables::runs` takes it), and where the children's segments are cut, if anywhere. Its column
// in the table of figures is a guess.
#[derive(Clone, Copy, PartialEq, Eq)]
pub struct Trial {
    pub on: Run,
    pub by_scatter: bool,
    pub cut: Option<usize>,
    pub column: Option<usize>,
}

// Whether trace t goes left, by its figures from those that are kept or from its samples.
pub fn goes_left_at(
    samples: &[Word],
    n: usize,
    place: &[u16],
    kept: Option<&[Figures]>,
    t: usize,
    c: Trial,
    threshold: i64,
) -> bool
    requires { RunOfTrace samples.now n t c.on.first c.on.last × IfSome kept (λ k. RowOf (trace_in samples.now n t) place.now c.on k.now t) }
    ensures { result ≡ sends_left (trial_test c threshold) (trace_in samples.now n t) }
{
    let own = figures_at(samples, n, place, kept, t, c.on);
    is_left(own.sum, own.scatter, c.by_scatter, threshold)
}

// The list's traces on one side of a test, in the list's order. The answer is how many there are; places behind them are not looked at.
pub fn list_side(rows: Rows, c: Trial, threshold: i64, left: bool, side: &mut [u16; 4096]) -> usize
    requires { Inside rows.traces.n c.on.first c.on.last × (length side.old ≡ most_traces) }
    ensures side_after { take result side.new
        ≡ side_of rows.entry.traces.samples.now rows.entry.traces.n (trial_test c threshold) left rows.entry.traces.list.now }
    ensures few { result ≤ most_traces }
    ensures size { length side.new ≡ most_traces }
{
    let kept = rows.kept_on(c.column, c.on);
    let traces = rows.traces;
    let list = traces.list;
    let mut most: usize = 0;
    for &number in list {
        let t = usize::from(number);
        let goes = goes_left_at(traces.samples, traces.n, rows.place, kept, t, c, threshold);
        side[most] = number;
        most += usize::from(left == goes);
    }
    most
}
