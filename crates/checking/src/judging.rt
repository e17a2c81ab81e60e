// What the check refuses: what every call on made tables does, then a loose record (13).

ghost use Rattle.std.specs.Prelude.{◌≡◌};
ghost use Rattle.dstree.specs.Refusals.{first_of};
ghost use Rattle.tables.specs.Shared.{tables_lent};
ghost use Rattle.tables.specs.Answers.{found_by};
ghost use Rattle.calls.specs.Effects.{checks};

use tables::Refusal;
use tables::lent::Lent;
use well_formed::judging::judge_tables;

pub fn judge(lent: Lent) -> Result<(), Refusal>
    ensures { found_by result ≡ first_of (checks
        (tables_lent lent.entry)).conditions }
{
    judge_tables(lent)?;
    if !crate::is_exact(lent.control, lent.samples, lent.nodes, lent.links) {
        return Err(Refusal::LooseRecord);
    }
    Ok(())
}
