// Whole blocks, each filled as its own 512 bytes.

ghost use Rattle.std.specs.Prelude.{◌≡◌, ◌∷◌, [], ◌++◌, ◌≤◌, length, take, replicate};
ghost use Rattle.std.proofs.lemmas.List.Edits.{sets};
ghost use Rattle.dstree.specs.Measures.{measures};
ghost use Rattle.dstree.specs.Sheet.{bytes_of, filled_to, block_size, checked_size, sealed, block, measure_bytes, head_of, coded_all};
ghost use Rattle.dstree.specs.Sheet.{label_cells, label_kind};
ghost use Rattle.segment.specs.Stored.{samples_of};
ghost use Rattle.sheet.specs.Formats.{format_by, kind_by};
ghost use Rattle.sheet.specs.LabelCodes.{label_codes};

use crate::check::check_of;
use crate::fields::{put_bytes, put_two};
use crate::formats::{BlockKind, Format};
use crate::labels::put_labels;
use crate::letters::LETTERS;
use crate::samples::put_samples;
use segment::Word;

// "All else is 0": before a block's fields are put, every byte is 0.
fn zero(part: &mut [u8])
    ensures { part.new ≡ replicate (length part.old) 0 }
{
    part.fill(0);
}

// Number and kind, and nothing else yet.
fn begin(part: &mut [u8], number: u16, kind: BlockKind)
    requires { length part.old ≡ block_size }
    ensures { part.new ≡ filled_to block_size (bytes_of 2 number ++ (kind_by kind ∷ 0 ∷ [])) }
{
    zero(part);
    put_two(part, 0, number);
    part[2] = u8::from(kind);
}

// The check behind the 510 bytes before it.
fn seal(part: &mut [u8])
    requires { length part.old ≡ block_size }
    ensures { part.new ≡ sealed (take checked_size part.old) }
{
    let check = check_of(part);
    put_two(part, 510, check as u16);
}

// "two bytes each for n, capacity, leaf size, trace count", from byte 8 on.
fn put_measures(part: &mut [u8], n: u16, capacity: u16, leaf_size: u16, count: u16)
    requires { length part.old ≡ block_size }
    ensures { part.new ≡ sets part.old 8 (measure_bytes (measures n capacity leaf_size) count) }
{
    put_two(part, 8, n);
    put_two(part, 10, capacity);
    put_two(part, 12, leaf_size);
    put_two(part, 14, count);
}

// Block 0: the letters, the measures and the number of traces.
pub fn write_head(
    part: &mut [u8],
    n: u16,
    capacity: u16,
    leaf_size: u16,
    count: u16,
    format: Format,
)
    requires { length part.old ≡ block_size }
    ensures { part.new ≡ block (format_by format).head_kind 0 (head_of (measures n capacity leaf_size) count) }
{
    begin(part, 0, BlockKind::Head(format));
    put_bytes(part, 4, &LETTERS);
    put_measures(part, n, capacity, leaf_size, count);
    seal(part);
}

// Another block: the samples of words from byte 4 on, at most as many as a block carries.
pub fn write_samples(part: &mut [u8], number: u16, words: &[Word], format: Format)
    requires { (length part.old ≡ block_size) × (length words.now ≤ (format_by format).samples_per_block) }
    ensures { part.new
        ≡ block (format_by format).sample_kind number (coded_all (format_by format) (samples_of words.now)) }
{
    begin(part, number, BlockKind::Samples(format));
    put_samples(part, 4, words, format);
    seal(part);
}

// A block of labels: at most 84 from byte 4 on.
pub fn write_labels(part: &mut [u8], number: u16, labels: &[u64])
    requires { (length part.old ≡ block_size) × (length labels.now ≤ label_cells.cells_per_block) }
    ensures { part.new ≡ block label_kind number (label_codes labels.now) }
{
    begin(part, number, BlockKind::Labels);
    put_labels(part, 4, labels);
    seal(part);
}
