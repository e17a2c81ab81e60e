// The least and greatest figures of the traces of a list, on a run of samples.

ghost use Rattle.std.specs.Prelude.{◌≡◌};
ghost use Rattle.dstree.specs.Figures.{run};
ghost use Rattle.dstree.specs.Adding.{segment_of};
ghost use Rattle.tables.specs.Runs.{Inside};
ghost use Rattle.leaf_figures.specs.Sides.{SmallFigures, segment_by};
ghost use Rattle.leaf_figures.specs.Rows.{all_traces};

use crate::rows::{Rows, figures_at};
use crate::sides::{NO_TRACE, SideRange, widened};
use crate::table::Run;

// A loop that leaves the last trace out does not meet this. `guess` is the column that the run may have.
pub fn figures_along(rows: Rows, guess: Option<usize>, on: Run) -> SideRange
    requires { Inside rows.traces.n on.first on.last }
    ensures result_value { segment_by on.last result
        ≡ segment_of (all_traces rows.entry.traces) (run on.first on.last) }
    ensures small { SmallFigures result }
{
    let kept = rows.kept_on(guess, on);
    let traces = rows.traces;
    let list = traces.list;
    let mut f: Option<SideRange> = None;
    for &number in list {
        let own = figures_at(
            traces.samples,
            traces.n,
            rows.place,
            kept,
            usize::from(number),
            on,
        );
        f = Some(widened(f, own.sum, own.scatter));
    }
    f.unwrap_or(NO_TRACE)
}
