// The blocks of a sheet, each filled as its own 512 bytes.

ghost use Rattle.std.specs.Prelude.{◌≡◌, [], ◌+◌, ◌*◌, ◌≤◌, ◌<◌, length, take};
ghost use Rattle.segment.specs.Stored.{samples_of};
ghost use Rattle.dstree.specs.Sheet.{block_size, most_blocks, label_cells, block, head_of, sheet_as, blocks_needed_as};
ghost use Rattle.sheet.specs.Formats.{format_by};
ghost use Rattle.dstree.specs.Book.{over};
ghost use Rattle.tables.specs.Tables.{tables, measures_of, trace_count};
ghost use Rattle.tables.specs.View.{traces_in, labels_in};
ghost use Rattle.sheet_writing.specs.Filled.{sheet_tables, with_block, sample_block, with_samples, label_block, with_label_blocks, Fillable};

use crate::judging::{label_blocks, sample_blocks};
use segment::Word;
use sheet::blocks::{write_head, write_labels, write_samples};
use sheet::formats::Format;
use tables::control::field;
use tables::numbers::wide;
use tables::places::{CAPACITY, LEAF_SIZE, N, TRACE_COUNT};

// Where a block's samples or labels end: as many further on as a block carries, or where all end.
fn run_end(from: usize, total: usize, most: usize) -> usize
    requires { from ≤ total }
    ensures { (from ≤ result) × (result ≤ total) × (result ≤ from + most) × (result < total → from + most ≤ result) }
{
    from + most.min(total - from)
}

// Block 1 + i, with the samples that it carries, 253 or 126 at most.
fn fill_block(sheet: &mut [u8], samples: &[Word], i: usize, total: usize, format: Format)
    requires { (i < most_blocks) × (i * (format_by format).samples_per_block ≤ total) × (total ≤ length samples.now)
        × (block_size * (1 + i) + block_size ≤ length sheet.old) }
    ensures { sheet.new
        ≡ with_block sheet.old (1 + i) (sample_block (format_by format) (samples_of (take total samples.now)) i) }
{
    let each = format.block_samples();
    let from = i * each;
    let to = run_end(from, total, each);
    let number = 1 + i;
    let start = 512 * number;
    let end = start + 512;
    write_samples(
        &mut sheet[start..end],
        number as u16,
        &samples[from..to],
        format,
    );
}

// The blocks of samples behind block 0.
fn fill_blocks(sheet: &mut [u8], samples: &[Word], count: usize, total: usize, format: Format)
    requires { (count < most_blocks) × (count * (format_by format).samples_per_block < total + (format_by format).samples_per_block)
        × (total ≤ length samples.now) × (block_size * (1 + count) ≤ length sheet.old) }
    ensures { sheet.new
        ≡ with_samples (format_by format) sheet.old count (samples_of (take total samples.now)) }
{
    for i in 0..count {
        fill_block(sheet, samples, i, total, format);
    }
}

// The block of labels behind i others, with the labels that it carries.
fn fill_label_block(sheet: &mut [u8], labels: &[u64], first: usize, i: usize, total: usize)
    requires { (first + i < most_blocks) × (i * label_cells.cells_per_block ≤ total) × (total ≤ length labels.now)
        × (block_size * (first + i) + block_size ≤ length sheet.old) }
    ensures { sheet.new
        ≡ with_block sheet.old (first + i) (label_block (take total labels.now) first i) }
{
    let from = i * 84;
    let to = run_end(from, total, 84);
    let number = first + i;
    let begin = 512 * number;
    let end = begin + 512;
    write_labels(&mut sheet[begin..end], number as u16, &labels[from..to]);
}

// The blocks of labels behind those of samples.
fn fill_labels(sheet: &mut [u8], labels: &[u64], first: usize, labelled: usize, total: usize)
    requires { (first + labelled ≤ most_blocks) × (labelled * label_cells.cells_per_block < total + label_cells.cells_per_block)
        × (total ≤ length labels.now) × (block_size * (first + labelled) ≤ length sheet.old) }
    ensures { sheet.new ≡ with_label_blocks sheet.old first labelled (take total labels.now) }
{
    for i in 0..labelled {
        fill_label_block(sheet, labels, first, i, total);
    }
}

// Block 0.
fn fill_head(sheet: &mut [u8], control: &[u16], format: Format)
    requires { block_size ≤ length sheet.old }
    ensures { sheet.new ≡ with_block sheet.old 0
        (block (format_by format).head_kind 0
        (head_of (measures_of (tables control.now [] [] [] [])) (trace_count (tables control.now [] [] [] [])))) }
{
    let n = field(control, N);
    let capacity = field(control, CAPACITY);
    let leaf_size = field(control, LEAF_SIZE);
    let k = field(control, TRACE_COUNT);
    write_head(&mut sheet[0..512], n, capacity, leaf_size, k, format);
}

// The whole sheet of a library that the tables hold, in either format, and the number of its blocks.
pub fn fill_sheet(
    control: &[u16],
    samples: &[Word],
    labels: &[u64],
    sheet: &mut [u8],
    format: Format,
) -> u64
    requires { Fillable control.now samples.now labels.now (format_by format) (length sheet.old) }
    ensures { (result ≡ blocks_needed_as (format_by format)
        (trace_count (sheet_tables control.now samples.now labels.now))
        (measures_of (sheet_tables control.now samples.now labels.now)).n
        (labels_in (sheet_tables control.now samples.now labels.now)))
        × (sheet.new ≡ over
        (sheet_as (format_by format) (measures_of (sheet_tables control.now samples.now labels.now))
        (traces_in (sheet_tables control.now samples.now labels.now))
        (labels_in (sheet_tables control.now samples.now labels.now)))
        sheet.old) }
{
    let n = wide(field(control, N));
    let k = wide(field(control, TRACE_COUNT));
    let count = sample_blocks(k, n, format);
    let labelled = label_blocks(labels, k);
    fill_head(sheet, control, format);
    fill_blocks(sheet, samples, count, k * n, format);
    fill_labels(sheet, labels, 1 + count, labelled, k);
    (1 + count + labelled) as u64
}
