// The test that every call on made tables begins with, in the table's order: a short control record (2), its measures (3), another short
// table (2), spoiled tables (3). What else a call refuses comes behind it.

ghost use Rattle.std.specs.Prelude.{◌≡◌};
ghost use Rattle.dstree.specs.Refusals.{first_of};
ghost use Rattle.tables.specs.Shared.{tables_lent};
ghost use Rattle.tables.specs.Answers.{found_by, made_conditions};

use tables::Refusal;
use tables::control::judge_lent;
use tables::lent::Lent;

// Tables of any lengths and contents. Contents are tested only if lengths and measures refuse nothing.
pub fn judge_tables(lent: Lent) -> Result<(), Refusal>
    ensures { found_by result ≡ first_of (made_conditions (tables_lent lent.entry)) }
{
    judge_lent(lent.lengths(), lent.measures())?;
    if !crate::well_formed(lent.control, lent.nodes, lent.links) {
        return Err(Refusal::Spoiled);
    }
    Ok(())
}
