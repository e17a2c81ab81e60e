// What a sheet of any bytes says: the refusals 8, 9, 10 and 15, and what an accepted sheet holds.
#![tactic(auto)]

pub mod contents; // letters, measures, count, number of blocks
pub mod labels; // the labels that a sheet holds
pub mod range; // samples outside the limits, and a wide sheet that need not be
pub mod traces; // the traces that an accepted sheet holds

ghost use Rattle.std.specs.Prelude.{◌≡◌, ◌++◌};
ghost use Rattle.dstree.specs.Refusals.{first_of};
ghost use Rattle.std.proofs.Math.Option.{none};
ghost use Rattle.dstree.specs.Sheet.{is_wrong_length, blocks_in, torn_conditions, bad_conditions};
ghost use Rattle.dstree.specs.SheetWidths.{traces_held, range_conditions, sheet_conditions};
ghost use Rattle.sheet.specs.Formats.{format_by, says_wide};
ghost use Rattle.sheet_blocks.specs.Blocks.{InBlocks};
ghost use Rattle.tables.specs.Answers.{found_by};

use crate::contents::judge_contents;
use crate::range::judge_range;
use sheet::formats::Format;
use sheet_blocks::blocks::{first_torn, format_in};
use tables::Refusal;

// 8: no byte, no whole number of blocks, or more blocks than the largest library has.
fn wrong_length(size: usize) -> bool
    ensures { result ≡ is_wrong_length size }
{
    if size == 0 {
        return true;
    }
    if size % 512 != 0 {
        return true;
    }
    8373 < size / 512
}

// What is refused of a sheet without a torn block: its contents (10), then its samples (10, 15).
fn judge_whole(sheet: &[u8], format: Format) -> Result<(), Refusal>
    requires { InBlocks sheet.now × (first_of (torn_conditions (format_by format) 0 0 (blocks_in sheet.now)) ≡ none) }
    ensures { found_by result ≡ first_of (bad_conditions (format_by format) (blocks_in sheet.now)
        ++ range_conditions (says_wide format) (traces_held (format_by format) (blocks_in sheet.now))) }
{
    judge_contents(sheet, format)?;
    judge_range(sheet, format)
}

// What reading refuses by the sheet alone, in the table's order: its length (8), the first torn block (9), its contents (10), samples
// outside the limits (15).
//
// Two wrong programs that the contract rules out: one that tests letters and measures before the last block is known to be whole, and one
// that compares the number of all blocks and takes a sheet with a label block in place of a sample block.
pub fn judge_sheet(sheet: &[u8]) -> Result<(), Refusal>
    ensures { found_by result ≡ first_of (sheet_conditions sheet.now) }
{
    if wrong_length(sheet.len()) {
        return Err(Refusal::SheetLength);
    }
    let format = format_in(sheet);
    first_torn(sheet, format)?;
    judge_whole(sheet, format)
}
