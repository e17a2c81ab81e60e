// What a listing refuses: what every call on made tables does, then k outside 1 to 16 (11), then what every search does of its query and
// its trail, then a list for fewer than k traces (7).

ghost use Rattle.std.specs.Prelude.{◌≡◌, List, ℕ, ◌*◌, ◌≤◌, ℤ, length};
ghost use Rattle.dstree.specs.KNearest.{is_k};
ghost use Rattle.dstree.specs.Refusals.{first_of};
ghost use Rattle.tables.specs.Layout.{node_count_place, record_places, node_places};
ghost use Rattle.tables.specs.Tables as t;
ghost use Rattle.tables.specs.Tables.{tables};
ghost use Rattle.tables.specs.Shared.{tables_lent};
ghost use Rattle.tables.specs.Answers.{found_by};
ghost use Rattle.calls.specs.Effects.{list_conditions_in, lists};

use query_judging::judge_query;
use segment::Sample;
use tables::Refusal;
use tables::lent::Lent;
use well_formed::judging::judge_tables;

// k is from 1 to 16. At full width: no number wraps into that.
fn is_k(k: u64) -> bool
    ensures { result ≡ is_k k }
{
    if k < 1 {
        return false;
    }
    k <= 16
}

// What is refused behind the tables.
fn judge_own(
    control: &[u16],
    nodes: &[i64],
    query: &[Sample],
    trail: &[u16],
    list: &[u64],
    k: u64,
) -> Result<(), Refusal>
    requires { (t.field control.now node_count_place * record_places ≤ length nodes.now)
        × (t.field control.now node_count_place ≤ node_places) }
    ensures { (samples : List ℤ) (links work : List ℕ) → found_by result ≡ first_of (list_conditions_in
        (tables control.now samples nodes.now links work) k
        query.now trail.now list.now) }
{
    if !is_k(k) {
        return Err(Refusal::BadK);
    }
    judge_query(control, nodes, query, trail)?;
    if list.len() < 2 * (k as usize) {
        return Err(Refusal::ShortTrail);
    }
    Ok(())
}

pub fn judge(
    lent: Lent,
    query: &[Sample],
    trail: &[u16],
    list: &[u64],
    k: u64,
) -> Result<(), Refusal>
    ensures { found_by result ≡ first_of (lists
        (tables_lent lent.entry)
        k query.now trail.now list.now).conditions }
{
    judge_tables(lent)?;
    judge_own(lent.control, lent.nodes, query, trail, list, k)
}
