// The gain of a candidate.
ghost use Rattle.std.specs.Prelude.{◌≡◌, ◌+◌, ◌*◌, ◌<◌, ◌≤◌, pos, ◌-ℤ◌, length, is_some, IsTrue};
ghost use Rattle.segment.specs.Limits.{spread_most};
ghost use Rattle.dstree.specs.Adding as adding;
ghost use Rattle.dstree.specs.Adding.{split_by_test, spread};
ghost use Rattle.dstree.specs.Formed.{Rises};
ghost use Rattle.dstree.specs.Node.{most_segments};
ghost use Rattle.dstree.specs.Measures.{most_traces};
ghost use Rattle.tables.specs.Runs.{Inside};
ghost use Rattle.leaf_figures.specs.Ends.{ends_of, EndsRoom};
ghost use Rattle.leaf_figures.specs.Rows.{traces_at, stored_of};
ghost use Rattle.candidate.specs.Siding.{trial_test, side_of};
ghost use Rattle.candidate.specs.Leaves.{LeafKnown};
ghost use Rattle.candidate.specs.Trials.{child_ends, TrialFits};

use crate::leaf::Leaf;
use crate::siding::{Trial, list_side};
use leaf_figures::ends::{Ends, with_cut};
use leaf_figures::listed::Listed;
use leaf_figures::rows::Rows;
use leaf_figures::spread::spread_along;

// Twice the leaf's spread less both children's. It is a number with a sign: children's spreads can be the larger ones.
pub fn gain(whole: u64, left: u64, right: u64) -> i64
    requires { (whole ≤ spread_most) × (left ≤ spread_most) × (right ≤ spread_most) }
    ensures { result ≡ pos (2 * whole) -ℤ pos (left + right) }
{
    (2 * whole) as i64 - (left + right) as i64
}

// The children's right ends: the leaf's own, or with one more, where there is a cut.
pub fn child_ends(e: Ends, cut: Option<usize>) -> Ends
    requires { EndsRoom e × (IsTrue (is_some cut) → e.count < most_segments) }
    ensures result_value { ends_of result ≡ child_ends cut (ends_of e) }
    ensures room { EndsRoom result }
{
    match cut {
        None => e,
        Some(middle) => with_cut(e, middle),
    }
}

// The spread of one side of a trial, over the children's ends. `side` is room for the side's list.
fn side_spread(
    rows: Rows,
    c: Trial,
    threshold: i64,
    left: bool,
    child: Ends,
    side: &mut [u16; 4096],
) -> u64
    requires { Inside rows.traces.n c.on.first c.on.last × (length side.old ≡ most_traces) × EndsRoom child
        × Rises rows.traces.n 1 (ends_of child) }
    ensures value { result ≡ spread (ends_of child)
        (traces_at rows.entry.traces.samples.now rows.entry.traces.n
        (side_of rows.entry.traces.samples.now rows.entry.traces.n (trial_test c threshold) left rows.entry.traces.list.now)) }
    ensures size { result ≤ spread_most }
    ensures room { length side.new ≡ most_traces }
{
    let many = list_side(rows, c, threshold, left, side);
    let traces = Listed {
        samples: rows.traces.samples,
        n: rows.traces.n,
        k: rows.traces.k,
        list: &side[..many],
    };
    let some = Rows {
        traces,
        place: rows.place,
        columns: rows.columns,
    };
    spread_along(some, halved_by(c.column), child)
}

// The segment that a column cuts into its halves, if it is a half's.
fn halved_by(column: Option<usize>) -> Option<usize> {
    let at = column?;
    if at < 16 { None } else { Some(at % 16) }
}

// The gain of the candidate on a run with this threshold: the spread of each of its sides is over the children's ends. `side` is room for a
// side's list.
pub fn gain_of(leaf: Leaf, c: Trial, threshold: i64, side: &mut [u16; 4096]) -> i64
    requires { LeafKnown leaf × TrialFits leaf.rows.traces.n (ends_of leaf.ends) c × (length side.old ≡ most_traces) }
    ensures value { result ≡ adding.gain (stored_of leaf.entry.rows.traces) (ends_of leaf.entry.ends) leaf.entry.rows.traces.list.now
        (split_by_test (stored_of leaf.entry.rows.traces) leaf.entry.rows.traces.list.now (trial_test c threshold)
        (child_ends c.cut (ends_of leaf.entry.ends))) }
    ensures room { length side.new ≡ most_traces }
{
    let child = child_ends(leaf.ends, c.cut);
    let left = side_spread(leaf.rows, c, threshold, true, child, side);
    let right = side_spread(leaf.rows, c, threshold, false, child, side);
    gain(leaf.whole, left, right)
}
