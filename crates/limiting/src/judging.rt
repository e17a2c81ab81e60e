// What a match with a limit refuses: what every call on made tables does, then a limit of no leaf (18), then what every search does of its
// query and its trail.

ghost use Rattle.std.specs.Prelude.{◌≡◌, List, ℕ, ◌*◌, ◌≤◌, ℤ, length};
ghost use Rattle.dstree.specs.Refusals.{first_of};
ghost use Rattle.tables.specs.Layout.{node_count_place, record_places, node_places};
ghost use Rattle.tables.specs.Tables as t;
ghost use Rattle.tables.specs.Tables.{tables};
ghost use Rattle.tables.specs.Shared.{tables_lent};
ghost use Rattle.tables.specs.Answers.{found_by};
ghost use Rattle.calls.specs.Effects.{limit_conditions_in, limits};

use query_judging::judge_query;
use segment::Sample;
use tables::Refusal;
use tables::lent::Lent;
use well_formed::judging::judge_tables;

// What is refused behind the tables. A limit past all leaves is none.
fn judge_own(
    control: &[u16],
    nodes: &[i64],
    query: &[Sample],
    trail: &[u16],
    most: u64,
) -> Result<(), Refusal>
    requires { (t.field control.now node_count_place * record_places ≤ length nodes.now)
        × (t.field control.now node_count_place ≤ node_places) }
    ensures { (samples : List ℤ) (links work : List ℕ) → found_by result ≡ first_of (limit_conditions_in
        (tables control.now samples nodes.now links work) most
        query.now trail.now) }
{
    if most == 0 {
        return Err(Refusal::NoLeaves);
    }
    judge_query(control, nodes, query, trail)
}

pub fn judge(lent: Lent, query: &[Sample], trail: &[u16], most: u64) -> Result<(), Refusal>
    ensures { found_by result ≡ first_of (limits
        (tables_lent lent.entry)
        most query.now trail.now).conditions }
{
    judge_tables(lent)?;
    judge_own(lent.control, lent.nodes, query, trail, most)
}
