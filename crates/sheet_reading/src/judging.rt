// What reading refuses, in the table's order: the sheet's length (8), torn blocks (9), its contents (10), its samples (15), short tables
// (2).

ghost use Rattle.std.specs.Prelude.{◌≡◌, ℕ, ◌≤◌};
ghost use Rattle.dstree.specs.Measures.{most_samples, most_traces, measures};
ghost use Rattle.dstree.specs.Refusals.{first_of};
ghost use Rattle.dstree.specs.SheetWidths.{judge_sheet};
ghost use Rattle.dstree.specs.Book.{short_conditions, reading_conditions};
ghost use Rattle.tables.specs.Layout.{layout};
ghost use Rattle.tables.specs.Judge.{lengths_by};
ghost use Rattle.tables.specs.Answers.{found_by};

use sheet_judging::contents::head_of;
use sheet_judging::judge_sheet;
use tables::control::{control_short, tables_short};
use tables::{Lengths, Refusal};

// Tables too short for measures in range. The leaf size does not bear on it.
fn judge_short(lengths: Lengths, n: u64, capacity: u64) -> Result<(), Refusal>
    requires { (n ≤ most_samples) × (capacity ≤ most_traces) }
    ensures { (leaf_size : ℕ) → found_by result
        ≡ first_of (short_conditions layout (lengths_by lengths) (measures n capacity leaf_size)) }
{
    if control_short(lengths.control) {
        return Err(Refusal::ShortTable);
    }
    if tables_short(lengths, n, capacity) {
        return Err(Refusal::ShortTable);
    }
    Ok(())
}

pub fn judge_reading(lengths: Lengths, sheet: &[u8]) -> Result<(), Refusal>
    ensures { found_by result ≡ first_of (reading_conditions layout (lengths_by lengths) (judge_sheet sheet.now)) }
{
    judge_sheet(sheet)?;
    let head = head_of(sheet);
    judge_short(lengths, head.n, head.capacity)
}
