// Bytes that must be 0.

ghost use Rattle.std.specs.Prelude.{◌≡◌, ◌-◌, ◌≤◌, length, drop};
ghost use Rattle.dstree.specs.Measures.{most_samples, most_traces};
ghost use Rattle.dstree.specs.Sheet.{part, carried_size, are_zero, thirds_in, blocks_in, zeros_in};
ghost use Rattle.sheet.specs.Formats.{format_by};
ghost use Rattle.sheet_blocks.specs.Blocks.{InBlocks, block_count, block_at, later_blocks, label_start, RightNumbers};
ghost use Rattle.sheet_blocks.specs.Blocks.{cells_between, spare_between, zeros_between, Fills};

use crate::blocks::Cursor;
use sheet::formats::Format;

// The bytes from one place to another.
fn zeros(bytes: &[u8], from: usize, to: usize) -> bool
    requires { (from ≤ to) × (to ≤ length bytes.now) }
    ensures { result ≡ are_zero (part from (to - from) bytes.now) }
{
    bytes[from..to].iter().all(|byte| *byte == 0)
}

// Byte 3 of every block.
fn thirds_zero(sheet: &[u8]) -> bool
    requires { InBlocks sheet.now }
    ensures { result ≡ are_zero (thirds_in (blocks_in sheet.now)) }
{
    let count = sheet.len() / 512;
    let mut cursor = Cursor::first();
    while cursor.number < count {
        let third = cursor.start() + 3;
        if sheet[third] != 0 {
            return false;
        }
        cursor = cursor.next();
    }
    true
}

// In each of some blocks, the bytes behind those that cells can take.
fn spare_zero(sheet: &[u8], from: usize, to: usize, size: usize) -> bool
    requires { InBlocks sheet.now × (to ≤ block_count sheet.now) × (size ≤ carried_size) }
    ensures { result ≡ are_zero (spare_between size sheet.now from to) }
{
    for number in from..to {
        let start = number * 512 + 4;
        if !zeros(sheet, start + size, start + 506) {
            return false;
        }
    }
    true
}

// What is left behind the last of the cells, in the last of some blocks. With no cell there is no such block.
fn left_zero(sheet: &[u8], from: usize, to: usize, size: usize, taken: usize) -> bool
    requires { InBlocks sheet.now × (from ≤ to) × (to ≤ block_count sheet.now) × (size ≤ carried_size)
        × Fills size (to - from) taken }
    ensures { result ≡ are_zero (drop taken (cells_between size sheet.now from to)) }
{
    if from == to {
        return true;
    }
    let last = to - 1;
    let used = taken - (last - from) * size;
    let start = last * 512 + 4;
    zeros(sheet, start + used, start + size)
}

// What no cell takes, in some blocks whose cells take so many bytes in all.
fn behind_zero(sheet: &[u8], from: usize, to: usize, size: usize, taken: usize) -> bool
    requires { InBlocks sheet.now × (from ≤ to) × (to ≤ block_count sheet.now) × (size ≤ carried_size)
        × Fills size (to - from) taken }
    ensures { result ≡ are_zero (zeros_between size taken sheet.now from to) }
{
    if !spare_zero(sheet, from, to, size) {
        return false;
    }
    left_zero(sheet, from, to, size, taken)
}

// Every byte that must be 0, of a sheet with as many blocks of each kind as so many traces need. 253 samples of two bytes take 506 bytes of
// a block, 126 of four take 504, as 84 labels do.
pub fn all_zero(sheet: &[u8], start: usize, count: usize, n: usize, format: Format) -> bool
    requires { InBlocks sheet.now × (start ≡ label_start sheet.now) × (count ≤ most_traces) × (n ≤ most_samples)
        × RightNumbers (format_by format) sheet.now count n }
    ensures { result
        ≡ are_zero (zeros_in (format_by format) count n (block_at sheet.now 0) (later_blocks sheet.now 1)) }
{
    if !thirds_zero(sheet) {
        return false;
    }
    if !zeros(sheet, 16, 510) {
        return false;
    }
    let size = format.sample_bytes();
    if !behind_zero(
        sheet,
        1,
        start,
        size * format.block_samples(),
        size * (count * n),
    ) {
        return false;
    }
    behind_zero(sheet, start, sheet.len() / 512, 504, 6 * count)
}
