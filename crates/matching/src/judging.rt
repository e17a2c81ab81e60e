// What a match refuses: what every call on made tables does, then what every search does of its query and its trail.

ghost use Rattle.std.specs.Prelude.{◌≡◌};
ghost use Rattle.dstree.specs.Refusals.{first_of};
ghost use Rattle.tables.specs.Shared.{tables_lent};
ghost use Rattle.tables.specs.Answers.{found_by};
ghost use Rattle.calls.specs.Effects.{matches};

use query_judging::judge_query;
use segment::Sample;
use tables::Refusal;
use tables::lent::Lent;
use well_formed::judging::judge_tables;

pub fn judge(lent: Lent, query: &[Sample], trail: &[u16]) -> Result<(), Refusal>
    ensures { found_by result ≡ first_of (matches (tables_lent lent.entry) query.now trail.now).conditions }
{
    judge_tables(lent)?;
    judge_query(lent.control, lent.nodes, query, trail)
}
