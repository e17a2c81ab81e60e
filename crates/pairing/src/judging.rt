// What a match over two libraries refuses: of the factory's tables what every call on made tables does, of the bench's the same, then what
// is wrong with both together, with the query or with a trail.

ghost use Rattle.std.specs.Prelude.{◌≡◌, ◌+◌, ◌*◌, ◌≤◌, length, eqb};
ghost use Rattle.dstree.specs.Refusals.{first_of};
ghost use Rattle.dstree.specs.Pair.{pair_conditions, of_factory};
ghost use Rattle.tables.specs.Layout.{n_place, trace_count_place, node_count_place, record_places, node_places};
ghost use Rattle.tables.specs.Tables as t;
ghost use Rattle.tables.specs.Shared.{tables_lent};
ghost use Rattle.tables.specs.Answers.{found_by};
ghost use Rattle.calls.specs.Effects.{other_in, pairs};
ghost use Rattle.query_judging.specs.LeafCount.{leaf_count};

use query_judging::is_short;
use segment::Sample;
use tables::Refusal;
use tables::control::field;
use tables::given::are_samples;
use tables::lent::Lent;
use tables::numbers::wide;
use tables::places::{N, TRACE_COUNT};
use well_formed::judging::judge_tables;

// Whether neither library has a trace.
fn none_stored(control: &[u16], bench_control: &[u16]) -> bool
    ensures { result ≡ eqb (t.field control.now trace_count_place + t.field bench_control.now trace_count_place) 0 }
{
    let stored = wide(field(control, TRACE_COUNT));
    let bench_stored = wide(field(bench_control, TRACE_COUNT));
    stored + bench_stored == 0
}

// Libraries for traces of different lengths (17), a query of another length (4), a sample outside the limits (15), no trace in both (6), a
// trail with fewer places than its library has leaves (7).
fn judge_own(
    control: &[u16],
    nodes: &[i64],
    trail: &[u16],
    bench_control: &[u16],
    bench_nodes: &[i64],
    bench_trail: &[u16],
    query: &[Sample],
) -> Result<(), Refusal>
    requires { (t.field control.now node_count_place * record_places ≤ length nodes.now)
        × (t.field control.now node_count_place ≤ node_places)
        × (t.field bench_control.now node_count_place * record_places ≤ length bench_nodes.now)
        × (t.field bench_control.now node_count_place ≤ node_places) }
    ensures { found_by result ≡ first_of (pair_conditions
        (t.field control.now n_place) (t.field bench_control.now n_place)
        (t.field control.now trace_count_place) (t.field bench_control.now trace_count_place)
        (leaf_count nodes.now (t.field control.now node_count_place) 0)
        (leaf_count bench_nodes.now (t.field bench_control.now node_count_place) 0)
        query.now trail.now bench_trail.now) }
{
    let n = wide(field(control, N));
    let unlike = n != wide(field(bench_control, N));
    let wrong = query.len() != n;
    if unlike {
        return Err(Refusal::UnlikeLibraries);
    }
    if wrong {
        return Err(Refusal::WrongTrace);
    }
    let outside = !are_samples(query);
    if outside {
        return Err(Refusal::SampleRange);
    }
    if none_stored(control, bench_control) {
        return Err(Refusal::Empty);
    }
    if is_short(control, nodes, trail) {
        return Err(Refusal::ShortTrail);
    }
    if is_short(bench_control, bench_nodes, bench_trail) {
        return Err(Refusal::ShortTrail);
    }
    Ok(())
}

pub fn judge(
    factory: Lent,
    trail: &[u16],
    bench: Lent,
    bench_trail: &[u16],
    query: &[Sample],
) -> Result<(), Refusal>
    ensures { found_by result ≡ first_of (pairs (tables_lent factory.entry) of_factory
        (other_in (tables_lent bench.entry) bench_trail.now)
        query.now trail.now).conditions }
{
    judge_tables(factory)?;
    judge_tables(bench)?;
    judge_own(
        factory.control,
        factory.nodes,
        trail,
        bench.control,
        bench.nodes,
        bench_trail,
        query,
    )
}
