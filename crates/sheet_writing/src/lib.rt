// Writing a library to a sheet.
#![tactic(auto)]

pub mod judging; // what writing refuses
pub mod filling; // the blocks of a sheet

ghost use Rattle.std.specs.Prelude.{◌≡◌, [], ◌∷◌};
ghost use Rattle.dstree.specs.Book.{writing};
ghost use Rattle.tables.specs.Lent.{tables_before};
ghost use Rattle.calls.specs.Outcome.{outcome};
ghost use Rattle.calls.specs.Effects.{outcome_on};
ghost use Rattle.sheet_writing.specs.Answered.{answer_by};

use segment::Word;
use tables::Refusal;
use tables::lent::Lent;

// Writes the library to the sheet's first blocks, its labels behind its samples, and answers the number of blocks. Every refusal is decided
// before anything is written. All six tables are lent only to be read and to be long enough: they stay as they were.
//
// Two wrong programs that the contract rules out: one that starts each trace in a block of its own, and one that writes label blocks where
// every label is zero.
pub fn write_sheet(
    control: &[u16],
    samples: &[Word],
    nodes: &[i64],
    links: &[u16],
    work: &[u64],
    labels: &[u64],
    sheet: &mut [u8],
) -> Result<u64, Refusal>
    ensures { outcome (answer_by result sheet.new)
        (tables_before control samples nodes links work labels)
        (sheet.new ∷ [])
        ≡ outcome_on (writing sheet.old)
        (tables_before control samples nodes links work labels) }
{
    let lent = Lent {
        control,
        samples,
        nodes,
        links,
        work,
        labels,
    };
    let format = judging::judge(lent, sheet)?;
    Ok(filling::fill_sheet(control, samples, labels, sheet, format))
}
