// What the program refuses: a sheet above 65,536 bytes (8), what reading refuses of a sheet (8, 9, 10, 15), measures above its tables (2),
// no earlier trace (6).

ghost use Rattle.std.specs.Prelude.{◌≡◌, ℕ};
ghost use Rattle.dstree.specs.Measures.{measures};
ghost use Rattle.dstree.specs.Refusals.{first_of};
ghost use Rattle.tables.specs.Answers.{found_by};
ghost use Rattle.sheet_line.specs.Conditions.{small_conditions, program_conditions};

use sheet_judging::contents::head_of;
use sheet_judging::judge_sheet;
use tables::Refusal;

// n, then capacity, then the number of traces, the query being one of them. The leaf size does not bear on it.
fn judge_small(n: u64, capacity: u64, count: u64) -> Result<(), Refusal>
    ensures { (leaf_size : ℕ) → found_by result ≡ first_of (small_conditions (measures n capacity leaf_size) count) }
{
    if 64 < n {
        return Err(Refusal::ShortTable);
    }
    if 64 < capacity {
        return Err(Refusal::ShortTable);
    }
    if count <= 1 {
        return Err(Refusal::Empty);
    }
    Ok(())
}

pub fn judge_program(sheet: &[u8]) -> Result<(), Refusal>
    ensures { found_by result ≡ first_of (program_conditions sheet.now) }
{
    if 65536 < sheet.len() {
        return Err(Refusal::SheetLength);
    }
    judge_sheet(sheet)?;
    let head = head_of(sheet);
    judge_small(head.n, head.capacity, head.count)
}
