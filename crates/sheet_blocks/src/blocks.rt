// The position in a sheet, which moves on block by block, and torn blocks.

ghost use Rattle.std.specs.Prelude.{◌≡◌, ℕ, suc, ◌+◌, ◌*◌, ◌-◌, min, ◌≤◌, ◌<◌, length};
ghost use Rattle.dstree.specs.Refusals.{first_of};
ghost use Rattle.dstree.specs.Sheet.{block_size, most_blocks, is_kind, is_torn, blocks_in, torn_conditions};
ghost use Rattle.dstree.specs.SheetWidths.{is_wide};
ghost use Rattle.sheet.specs.Formats.{format_by, says_wide};
ghost use Rattle.tables.specs.Answers.{found_by};
ghost use Rattle.sheet_blocks.specs.Blocks.{InBlocks, block_count, kind_before, label_start};
ghost use Rattle.sheet_blocks.specs.Traces.{IsAt, sample_place};

use sheet::check::check_of;
use sheet::fields::two_bytes;
use sheet::formats::{BlockKind, Format};
use tables::Refusal;

// The number of the block that is read next, and how many of its samples are read already.
#[derive(Clone, Copy)]
pub struct Cursor {
    pub number: usize,
    pub used: usize,
}

impl Cursor {
    pub fn first() -> Cursor
        ensures { result.number ≡ 0 }
    {
        Cursor { number: 0, used: 0 }
    }

    // At a sample by its number: "253 samples each", or 126, from block 1 on.
    pub fn at_sample(i: usize, format: Format) -> Cursor
        requires { i < most_blocks * (format_by format).samples_per_block }
        ensures { IsAt (format_by format) result.number result.used i }
    {
        let each = format.block_samples();
        Cursor {
            number: 1 + i / each,
            used: i % each,
        }
    }

    // The byte that the block starts with.
    pub fn start(self) -> usize
        requires { self.number ≤ most_blocks }
        ensures { result ≡ self.number * block_size }
    {
        self.number * 512
    }

    // The first byte of the sample that is read next.
    pub fn place(self, format: Format) -> usize
        requires { (self.number ≤ most_blocks) × (self.used < (format_by format).samples_per_block) }
        ensures { result ≡ sample_place (format_by format) self.number self.used }
    {
        self.start() + 4 + format.sample_bytes() * self.used
    }

    // One block on.
    pub fn next(self) -> Cursor
        requires { self.number ≤ most_blocks }
        ensures { (result.number ≡ suc self.number) × (result.used ≡ 0) }
    {
        Cursor {
            number: self.number + 1,
            used: 0,
        }
    }

    // How many of so many samples lie in the block.
    pub fn stretch(self, samples: usize, format: Format) -> usize
        requires { self.used ≤ (format_by format).samples_per_block }
        ensures { result ≡ min samples ((format_by format).samples_per_block - self.used) }
    {
        samples.min(format.block_samples() - self.used)
    }

    // Some of the block's samples on: behind the last of them, one block on.
    pub fn pass(self, samples: usize, format: Format) -> Cursor
        requires { (self.number ≤ most_blocks) × (self.used + samples ≤ (format_by format).samples_per_block) }
        ensures { (i : ℕ) → IsAt (format_by format) self.number self.used i
            → IsAt (format_by format) result.number result.used (i + samples) }
    {
        let used = self.used + samples;
        if used < format.block_samples() {
            return Cursor {
                number: self.number,
                used,
            };
        }
        self.next()
    }
}

// The format of a sheet, by the kind of block 0.
pub fn format_in(sheet: &[u8]) -> Format
    requires { InBlocks sheet.now }
    ensures { says_wide result ≡ is_wide sheet.now }
{
    if sheet[2] == u8::from(BlockKind::Head(Format::Wide)) {
        Format::Wide
    } else {
        Format::Narrow
    }
}

// "kind, 1 for block 0, 2 for others", or 3 and 4, and 5 for labels; "A sample block after a label block is a wrong kind".
fn kind_fits(number: u64, before: u8, kind: u8, format: Format) -> bool
    ensures { result ≡ is_kind (format_by format) number before kind }
{
    let labels = u8::from(BlockKind::Labels);
    if number == 0 {
        return kind == u8::from(BlockKind::Head(format));
    }
    if kind == labels {
        return true;
    }
    if before == labels {
        return false;
    }
    kind == u8::from(BlockKind::Samples(format))
}

// The kind of the block before a number, and 0 before block 0.
fn kind_before(sheet: &[u8], number: usize) -> u8
    requires { InBlocks sheet.now × (number ≤ block_count sheet.now) }
    ensures { result ≡ kind_before sheet.now number }
{
    if number == 0 {
        return 0;
    }
    sheet[(number - 1) * 512 + 2]
}

// 9: check, block number or kind wrong.
fn is_torn(block: &[u8], before: u8, number: u64, format: Format) -> bool
    requires { length block.now ≡ block_size }
    ensures { result ≡ is_torn (format_by format) before number block.now }
{
    let check = check_of(block);
    if two_bytes(block, 510) != check {
        return true;
    }
    if two_bytes(block, 0) != number {
        return true;
    }
    !kind_fits(number, before, block[2], format)
}

// The first torn block, in the order of their numbers.
pub fn first_torn(sheet: &[u8], format: Format) -> Result<(), Refusal>
    requires { InBlocks sheet.now }
    ensures { found_by result ≡ first_of (torn_conditions (format_by format) 0 0 (blocks_in sheet.now)) }
{
    let count = sheet.len() / 512;
    let mut cursor = Cursor::first();
    while cursor.number < count {
        let from = cursor.start();
        let number = cursor.number;
        let before = kind_before(sheet, number);
        if is_torn(&sheet[from..from + 512], before, number as u64, format) {
            return Err(Refusal::TornBlock(number as u64));
        }
        cursor = cursor.next();
    }
    Ok(())
}

// The number of the first block of labels; without labels, how many blocks there are.
pub fn label_start(sheet: &[u8]) -> usize
    requires { InBlocks sheet.now }
    ensures { result ≡ label_start sheet.now }
{
    let labels = u8::from(BlockKind::Labels);
    let count = sheet.len() / 512;
    for number in 1..count {
        if sheet[number * 512 + 2] == labels {
            return number;
        }
    }
    count
}
