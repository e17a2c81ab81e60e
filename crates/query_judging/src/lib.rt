// What every search refuses of its query, or of the run of its queries, and of its trail, behind what it refuses of its tables.
#![tactic(auto)]

pub mod leaves; // how many leaves there are

ghost use Rattle.std.specs.Prelude.{◌≡◌, List, ℕ, ◌*◌, ◌≤◌, ℤ, length, ltb};
ghost use Rattle.dstree.specs.Refusals.{first_of};
ghost use Rattle.tables.specs.Layout.{node_count_place, record_places, node_places};
ghost use Rattle.tables.specs.Tables as t;
ghost use Rattle.tables.specs.Tables.{tables};
ghost use Rattle.tables.specs.Answers.{found_by};
ghost use Rattle.calls.specs.Effects.{run_conditions_in, query_conditions_in};
ghost use Rattle.query_judging.specs.LeafCount.{leaf_count};

use segment::Sample;
use tables::Refusal;
use tables::control::field;
use tables::given::are_samples;
use tables::numbers::wide;
use tables::places::{N, NODE_COUNT, TRACE_COUNT};

// Whether a trail has fewer places than the tree has leaves.
pub fn is_short(control: &[u16], nodes: &[i64], trail: &[u16]) -> bool
    requires { (t.field control.now node_count_place * record_places ≤ length nodes.now)
        × (t.field control.now node_count_place ≤ node_places) }
    ensures { result ≡ ltb (length trail.now)
        (leaf_count nodes.now (t.field control.now node_count_place) 0) }
{
    let m = wide(field(control, NODE_COUNT));
    trail.len() < crate::leaves::leaf_count(nodes, m)
}

// A run of another length than so many samples (4), a sample outside the limits (15), no trace stored (6), a trail with fewer places than
// leaves (7). Neither stored samples nor links nor search work bear on these.
pub fn judge_run(
    control: &[u16],
    nodes: &[i64],
    run: &[Sample],
    size: usize,
    trail: &[u16],
) -> Result<(), Refusal>
    requires { (t.field control.now node_count_place * record_places ≤ length nodes.now)
        × (t.field control.now node_count_place ≤ node_places) }
    ensures { (samples : List ℤ) (links work : List ℕ) → found_by result ≡ first_of (run_conditions_in
        (tables control.now samples nodes.now links work) size run.now trail.now) }
{
    let stored = field(control, TRACE_COUNT);
    let wrong = run.len() != size;
    let empty = stored == 0;
    if wrong {
        return Err(Refusal::WrongTrace);
    }
    let outside = !are_samples(run);
    if outside {
        return Err(Refusal::SampleRange);
    }
    if empty {
        return Err(Refusal::Empty);
    }
    if is_short(control, nodes, trail) {
        return Err(Refusal::ShortTrail);
    }
    Ok(())
}

// .. of one query, which is as long as a trace.
pub fn judge_query(
    control: &[u16],
    nodes: &[i64],
    query: &[Sample],
    trail: &[u16],
) -> Result<(), Refusal>
    requires { (t.field control.now node_count_place * record_places ≤ length nodes.now)
        × (t.field control.now node_count_place ≤ node_places) }
    ensures { (samples : List ℤ) (links work : List ℕ) → found_by result ≡ first_of (query_conditions_in
        (tables control.now samples nodes.now links work) query.now trail.now) }
{
    let n = wide(field(control, N));
    judge_run(control, nodes, query, n, trail)
}
