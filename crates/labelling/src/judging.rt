// What the bench's call refuses: what every call on made tables does, then the number of no stored trace (12).

ghost use Rattle.std.specs.Prelude.{◌≡◌};
ghost use Rattle.dstree.specs.Refusals.{first_of};
ghost use Rattle.tables.specs.Shared.{tables_lent};
ghost use Rattle.tables.specs.Answers.{found_by};
ghost use Rattle.calls.specs.Effects.{tells_label};

use tables::Refusal;
use tables::control::field;
use tables::lent::Lent;
use tables::numbers::wider;
use tables::places::TRACE_COUNT;
use well_formed::judging::judge_tables;

pub fn judge(lent: Lent, number: u64) -> Result<(), Refusal>
    ensures { found_by result ≡ first_of (tells_label (tables_lent lent.entry) number).conditions }
{
    judge_tables(lent)?;
    let k = wider(field(lent.control, TRACE_COUNT));
    if k <= number {
        return Err(Refusal::BadRecording);
    }
    Ok(())
}
