// The samples of a wide sheet: one that is outside the limits is refused, and so is the sheet if all of them fit 16 bits.

ghost use Rattle.std.specs.Prelude.{◌≡◌, ◌*◌, ◌-◌, ◌≤◌};
ghost use Rattle.std.proofs.Math.Option.{none};
ghost use Rattle.dstree.specs.Measures.{are_within};
ghost use Rattle.dstree.specs.Refusals.{first_of};
ghost use Rattle.dstree.specs.Sheet.{blocks_in, conditions_as};
ghost use Rattle.sheet.specs.Formats.{format_by, says_wide};
ghost use Rattle.dstree.specs.SheetWidths.{traces_held, range_conditions};
ghost use Rattle.tables.specs.Answers.{found_by};
ghost use Rattle.sheet_blocks.specs.Blocks.{InBlocks, label_start};
ghost use Rattle.sheet_blocks.specs.Traces.{samples_from};

use crate::contents::head_of;
use sheet::formats::Format;
use sheet::samples::{magnitude, sample_at};
use sheet_blocks::blocks::Cursor;
use tables::Refusal;

// The first samples of a sheet are from −limit to limit − 1.
fn all_fit(sheet: &[u8], count: usize, limit: u64, format: Format) -> bool
    requires { InBlocks sheet.now × (count ≤ (label_start sheet.now - 1) * (format_by format).samples_per_block) }
    ensures { result ≡ are_within limit (samples_from (format_by format) sheet.now 0 count) }
{
    for i in 0..count {
        let cursor = Cursor::at_sample(i, format);
        let sample = sample_at(sheet, cursor.place(format), format);
        if limit <= magnitude(sample) {
            return false;
        }
    }
    true
}

// "A wide sheet whose samples all fit 16 bits is refused as 10", then 15. Two bytes say no other sample, so that of a narrow sheet nothing
// is refused.
pub fn judge_range(sheet: &[u8], format: Format) -> Result<(), Refusal>
    requires { first_of (conditions_as (format_by format) sheet.now) ≡ none }
    ensures { found_by result ≡ first_of (range_conditions (says_wide format) (traces_held (format_by format) (blocks_in sheet.now))) }
{
    match format {
        Format::Narrow => Ok(()),
        Format::Wide => {
            let head = head_of(sheet);
            let count = (head.count as usize) * (head.n as usize);
            if all_fit(sheet, count, 32768, format) {
                return Err(Refusal::BadSheet);
            }
            if !all_fit(sheet, count, 524288, format) {
                return Err(Refusal::SampleRange);
            }
            Ok(())
        }
    }
}
