// The candidate with the greatest gain.
ghost use Rattle.std.specs.Prelude.{◌≡◌, ◌∷◌, [], ◌++◌, ℕ, ◌≤◌, ◌<◌, pos, nat_abs};
ghost use Rattle.segment.specs.Roots.{floor_root};
ghost use Rattle.segment.specs.Limits.{scatter_most};
ghost use Rattle.dstree.specs.Measures.{most_samples, most_traces};
ghost use Rattle.dstree.specs.Figures.{run};
ghost use Rattle.dstree.specs.Adding.{by_either, halves, cut_at, best};
ghost use Rattle.dstree.specs.Formed.{Rises};
ghost use Rattle.dstree.specs.Node.{most_segments};
ghost use Rattle.tables.specs.Walk.{stored_in, numbers_of, Stored};
ghost use Rattle.tables.specs.Runs.{Inside};
ghost use Rattle.leaf_figures.specs.Ends.{ends_of, EndsRoom};
ghost use Rattle.leaf_figures.specs.Rows.{stored_of};
ghost use Rattle.candidate.specs.Leaves.{LeafKnown};
ghost use Rattle.candidate.specs.Trials.{candidate_by, child_ends, CutFits, TrialFits, TrialExtremes};
ghost use Rattle.split_choice.specs.Choosing.{leaf_traces, better_of, chosen_by, chosen_in, ChoiceSound, ChoiceSoundIn, SoundFor, AfterIn};

use candidate::gains::gain_of;
use candidate::leaf::Leaf;
use candidate::parting::look_at;
use candidate::siding::Trial;
use leaf_figures::along::figures_along;
use leaf_figures::ends::Ends;
use leaf_figures::filling::fill_rows;
use leaf_figures::listed::Listed;
use leaf_figures::lists::{list_leaf, place_list};
use leaf_figures::rows::{Rows, TableRows};
use leaf_figures::sameness::all_same;
use leaf_figures::spread::spread_along;
use leaf_figures::table::{NO_COLUMN, NO_VIEW, Run, Table, view_columns};
use segment::Word;

// A candidate that parts the leaf, with its threshold and its gain.
#[derive(Clone, Copy, PartialEq, Eq)]
pub struct Choice {
    pub trial: Trial,
    pub threshold: i64,
    pub gain: i64,
}

// A choice in place of the best so far, if its gain is above. An equal gain is not: the earliest among equals wins.
fn better(best: Option<Choice>, new: Choice) -> Choice
    ensures { result ≡ better_of best new }
{
    let Some(old) = best else {
        return new;
    };
    if old.gain < new.gain { new } else { old }
}

// One candidate tried: if both its sides are seen it parts the leaf, and its gain is compared. Otherwise no spread is taken. `side` is room
// for a side's list.
fn try_one(
    leaf: Leaf,
    trial: Trial,
    low: i64,
    high: i64,
    old: Option<Choice>,
    side: &mut [u16; 4096],
) -> Option<Choice>
    requires { LeafKnown leaf × TrialFits leaf.rows.traces.n (ends_of leaf.ends) trial × TrialExtremes (leaf_traces leaf) trial low high
        × SoundFor leaf old }
    ensures { AfterIn leaf.entry old (candidate_by (ends_of leaf.entry.ends) trial ∷ []) result }
{
    let seen = look_at(leaf.rows, trial, low, high);
    if seen.both {
        let threshold = low + high;
        let gain = gain_of(leaf, trial, threshold, side);
        let new = Choice {
            trial,
            threshold,
            gain,
        };
        return Some(better(old, new));
    }
    old
}

// A scatter's floor root, as a figure that a test compares.
fn root_of(scatter: u64) -> i64
    requires { scatter ≤ scatter_most most_samples }
    ensures { (result ≡ pos (floor_root scatter)) × (nat_abs result ≤ scatter_most most_samples) }
{
    segment_bound::roots::floor_root(scatter) as i64
}

// A run tried by sum, then by scatter. The least and greatest of both figures are taken at once, and two roots a run.
fn try_both(
    leaf: Leaf,
    column: usize,
    on: Run,
    cut: Option<usize>,
    old: Option<Choice>,
    side: &mut [u16; 4096],
) -> Option<Choice>
    requires { LeafKnown leaf × CutFits leaf.rows.traces.n (ends_of leaf.ends) on cut × SoundFor leaf old }
    ensures { AfterIn leaf.entry old (by_either (run on.first on.last) (child_ends cut (ends_of leaf.entry.ends))) result }
{
    let f = figures_along(leaf.rows, Some(column), on);
    let by_sum = Trial {
        on,
        by_scatter: false,
        cut,
        column: Some(column),
    };
    let by_scatter = Trial {
        by_scatter: true,
        ..by_sum
    };
    let best = try_one(leaf, by_sum, f.least_sum, f.greatest_sum, old, side);
    let low = root_of(f.least_scatter);
    let high = root_of(f.greatest_scatter);
    try_one(leaf, by_scatter, low, high, best, side)
}

// The halves of a segment, where another end has room and the segment has two samples or more. Segment i's columns are i, 16 + i and
// 32 + i.
fn try_halves(
    leaf: Leaf,
    i: usize,
    on: Run,
    old: Option<Choice>,
    side: &mut [u16; 4096],
) -> Option<Choice>
    requires { LeafKnown leaf × Inside leaf.rows.traces.n on.first on.last
        × ((m : ℕ) → on.first ≤ m → m < on.last → Rises leaf.rows.traces.n 1 (cut_at m (ends_of leaf.ends))) × (i < most_segments)
        × (on.first < on.last) × (leaf.ends.count < most_segments) × SoundFor leaf old }
    ensures { AfterIn leaf.entry old (halves (ends_of leaf.entry.ends) (run on.first on.last)) result }
{
    let (left, right) = on.halves();
    let cut = Some(left.last);
    let best = try_both(leaf, 16 + i, left, cut, old, side);
    try_both(leaf, 32 + i, right, cut, best, side)
}

// One segment's candidates: the whole segment, then its halves, where it has them.
fn try_segment(
    leaf: Leaf,
    i: usize,
    on: Run,
    old: Option<Choice>,
    side: &mut [u16; 4096],
) -> Option<Choice>
    requires { LeafKnown leaf × Inside leaf.rows.traces.n on.first on.last
        × ((m : ℕ) → on.first ≤ m → m < on.last → Rises leaf.rows.traces.n 1 (cut_at m (ends_of leaf.ends))) × (i < most_segments)
        × SoundFor leaf old }
    ensures { AfterIn leaf.entry old
        (by_either (run on.first on.last) (ends_of leaf.entry.ends) ++ halves (ends_of leaf.entry.ends) (run on.first on.last)) result }
{
    let whole = try_both(leaf, i, on, None, old, side);
    if 16 <= leaf.ends.count {
        return whole;
    }
    if on.last <= on.first {
        return whole;
    }
    try_halves(leaf, i, on, whole, side)
}

// The best of all candidates of a leaf whose numbers are listed.
fn best_along(rows: Rows, e: Ends) -> Option<Choice>
    requires { EndsRoom e × Rises rows.traces.n 1 (ends_of e) }
    ensures result_value { chosen_by (stored_of rows.entry.traces) (ends_of e) rows.entry.traces.list.now result
        ≡ best (stored_of rows.entry.traces) (ends_of e) rows.entry.traces.list.now }
    ensures sound { ChoiceSound rows.entry.traces.n (stored_of rows.entry.traces) (ends_of e) rows.entry.traces.list.now result }
{
    let leaf = Leaf {
        rows,
        ends: e,
        whole: spread_along(rows, None, e),
    };
    let mut side = [0u16; 4096];
    let mut found: Option<Choice> = None;
    let mut first: usize = 1;
    for i in 0..e.count {
        let last = e.at[i];
        found = try_segment(leaf, i, Run { first, last }, found, &mut side);
        first = last + 1;
    }
    found
}

// The same, with a table of the figures of a list that is not too long.
fn best_kept(traces: Listed, e: Ends) -> Option<Choice>
    requires { (traces.k ≤ most_traces) × EndsRoom e × Rises traces.n 1 (ends_of e) }
    ensures result_value { chosen_by (stored_of traces.entry) (ends_of e) traces.entry.list.now result
        ≡ best (stored_of traces.entry) (ends_of e) traces.entry.list.now }
    ensures sound { ChoiceSound traces.entry.n (stored_of traces.entry) (ends_of e) traces.entry.list.now result }
{
    let mut table = Table {
        place: [0; 4096],
        columns: [NO_COLUMN; 48],
    };
    place_list(traces.list, &mut table.place);
    fill_rows(traces, e, &mut table.columns);
    let kept = TableRows {
        traces,
        table: &table,
    };
    let mut columns = [NO_VIEW; 48];
    view_columns(&kept.table.columns, &mut columns);
    let rows = Rows {
        traces,
        place: &kept.table.place,
        columns: &columns,
    };
    best_along(rows, e)
}

// The split that a leaf takes, over the right ends of its node: the greatest gain, which can be below zero, and the earliest among equals.
// There is none if no candidate parts the leaf. A leaf whose traces are all the same is not tried: nothing parts it, and it may hold many.
pub fn choose(
    samples: &[Word],
    links: &[u16],
    n: usize,
    k: usize,
    head: usize,
    e: Ends,
) -> Option<Choice>
    requires { Stored samples.now links.now n k head × EndsRoom e × Rises n 1 (ends_of e) }
    ensures result_value { chosen_in samples.now links.now n k head e result
        ≡ best (stored_in samples.now n k) (ends_of e) (numbers_of links.now k head) }
    ensures sound { ChoiceSoundIn samples.now links.now n k head e result }
{
    let mut list = [0u16; 4096];
    let count = list_leaf(links, k, head, &mut list);
    let traces = Listed {
        samples,
        n,
        k,
        list: &list[..count],
    };
    if all_same(traces) {
        return None;
    }
    best_kept(traces, e)
}
