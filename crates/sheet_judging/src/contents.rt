// What a sheet of whole blocks says, and what of it is refused.

ghost use Rattle.std.specs.Prelude.{◌≡◌, ◌≤◌, ◌<◌, length};
ghost use Rattle.integer.specs.Words.{same};
ghost use Rattle.dstree.specs.Refusals.{first_of};
ghost use Rattle.dstree.specs.Sheet.{part, block_size, letters, blocks_in, bad_conditions};
ghost use Rattle.sheet.specs.Formats.{format_by};
ghost use Rattle.tables.specs.Answers.{found_by};
ghost use Rattle.sheet_blocks.specs.Blocks.{InBlocks, block_at};
ghost use Rattle.sheet_judging.specs.HeadBlock.{HeadSays};

use crate::labels::labels_bad;
use sheet::fields::two_bytes;
use sheet::formats::Format;
use sheet::letters::LETTERS;
use sheet_blocks::blocks::label_start;
use sheet_blocks::zeros::all_zero;
use tables::control::measures_fit;
use tables::{Measures, Refusal};

// Bytes 4 to 7 are the letters.
fn letters_fit(sheet: &[u8]) -> bool
    requires { 8 ≤ length sheet.now }
    ensures { result ≡ same (part 4 4 sheet.now) letters }
{
    sheet[4..8] == LETTERS[..]
}

// Measures and number of traces, as block 0 has them.
#[derive(Clone, Copy)]
pub struct Head {
    pub n: u64,
    pub capacity: u64,
    pub leaf: u64,
    pub count: u64,
}

pub fn head_of(sheet: &[u8]) -> Head
    requires { block_size ≤ length sheet.now }
    ensures { HeadSays (block_at sheet.now 0) result.n result.capacity result.leaf result.count }
{
    Head {
        n: two_bytes(sheet, 8),
        capacity: two_bytes(sheet, 10),
        leaf: two_bytes(sheet, 12),
        count: two_bytes(sheet, 14),
    }
}

// 10: letters, measures, count above capacity, number of blocks of each kind, only zero labels, or a nonzero byte that must be 0.
pub fn judge_contents(sheet: &[u8], format: Format) -> Result<(), Refusal>
    requires { InBlocks sheet.now }
    ensures { found_by result ≡ first_of (bad_conditions (format_by format) (blocks_in sheet.now)) }
{
    if !letters_fit(sheet) {
        return Err(Refusal::BadSheet);
    }
    let head = head_of(sheet);
    let n = head.n;
    let capacity = head.capacity;
    let count = head.count;
    if !measures_fit(Measures {
        n,
        capacity,
        leaf_size: head.leaf,
    }) {
        return Err(Refusal::BadSheet);
    }
    if capacity < count {
        return Err(Refusal::BadSheet);
    }
    let start = label_start(sheet);
    let samples = (count as usize) * (n as usize);
    if start - 1 != format.blocks_for(samples) {
        return Err(Refusal::BadSheet);
    }
    if labels_bad(sheet, start, count as usize) {
        return Err(Refusal::BadSheet);
    }
    if !all_zero(sheet, start, count as usize, n as usize, format) {
        return Err(Refusal::BadSheet);
    }
    Ok(())
}
