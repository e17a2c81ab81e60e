// Whether a test shows both sides among a leaf's traces, and how many of them it takes to see that (document 02, §3).
ghost use Rattle.std.specs.Prelude.{◌≡◌, ◌+ℤ◌};
ghost use Rattle.dstree.specs.Adding.{traces_of};
ghost use Rattle.tables.specs.Runs.{Inside};
ghost use Rattle.leaf_figures.specs.Rows.{stored_of};
ghost use Rattle.candidate.specs.Siding.{trial_test};
ghost use Rattle.candidate.specs.Trials.{TrialExtremes};
ghost use Rattle.candidate.specs.Parting.{look_of};

use crate::siding::{Trial, goes_left_at};
use leaf_figures::rows::Rows;

// Whether both sides were seen, and how many traces were taken: up to the one that showed the second side, or all.
// No Option: how many were taken is said of a yes and of a no.
#[derive(Clone, Copy, PartialEq, Eq)]
pub struct Look {
    pub both: bool,
    pub taken: usize,
}

// The listed traces in their order, which is by rising number, until one goes to the other side than the first: that one is the last to be
// taken. If none does, all are taken.
pub fn look_along(rows: Rows, c: Trial, threshold: i64) -> Look
    requires { Inside rows.traces.n c.on.first c.on.last }
    ensures { result ≡ look_of (stored_of rows.entry.traces) (trial_test c threshold) rows.entry.traces.list.now }
{
    let traces = rows.traces;
    let list = traces.list;
    if list.len() == 0 {
        return Look {
            both: false,
            taken: 0,
        };
    }
    let kept = rows.kept_on(c.column, c.on);
    let side = goes_left_at(
        traces.samples,
        traces.n,
        rows.place,
        kept,
        usize::from(list[0]),
        c,
        threshold,
    );
    for i in 1..list.len() {
        let goes = goes_left_at(
            traces.samples,
            traces.n,
            rows.place,
            kept,
            usize::from(list[i]),
            c,
            threshold,
        );
        if goes != side {
            return Look {
                both: true,
                taken: i + 1,
            };
        }
    }
    Look {
        both: false,
        taken: list.len(),
    }
}

// Whether a candidate parts the leaf, by its least and its greatest figure and the walk with their sum as threshold. Where the two are the
// same, every trace goes left: then the walk would take all and see one side, and is spared.
pub fn look_at(rows: Rows, c: Trial, low: i64, high: i64) -> Look
    requires { Inside rows.traces.n c.on.first c.on.last × TrialExtremes (traces_of (stored_of rows.traces) rows.traces.list.now) c low high }
    ensures { result ≡ look_of (stored_of rows.entry.traces) (trial_test c (low +ℤ high)) rows.entry.traces.list.now }
{
    if low < high {
        return look_along(rows, c, low + high);
    }
    Look {
        both: false,
        taken: rows.traces.list.len(),
    }
}
