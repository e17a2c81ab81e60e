// What writing refuses: what every call on made tables does, then a sheet below the need (8), which is that of the library's own format.

ghost use Rattle.std.specs.Prelude.{◌≡◌, not, map, ◌≤◌, ◌<◌, length, take};
ghost use Rattle.segment.specs.Stored.{samples_of};
ghost use Rattle.dstree.specs.Measures.{most_samples, most_traces, are_within};
ghost use Rattle.dstree.specs.Refusals.{first_of};
ghost use Rattle.dstree.specs.Labels.{are_zero_labels, label_at};
ghost use Rattle.dstree.specs.Sheet.{most_blocks, narrow_limit, sample_blocks_needed, label_blocks_needed, label_parts};
ghost use Rattle.sheet.specs.Formats.{format_by, says_wide};
ghost use Rattle.tables.specs.Shared.{tables_lent};
ghost use Rattle.tables.specs.View.{traces_in};
ghost use Rattle.calls.specs.Effects.{writes};
ghost use Rattle.sheet_writing.specs.Answered.{refusal_in, FindsFormat};

use segment::Word;
use sheet::formats::Format;
use sheet::samples::all_narrow;
use tables::Refusal;
use tables::control::field;
use tables::lent::Lent;
use tables::numbers::wide;
use tables::places::{N, TRACE_COUNT};
use well_formed::judging::judge_tables;

// "A library whose samples all fit 16 bits is written as before. Any other" is wide. The samples are those of the first words.
fn format_of(samples: &[Word], total: usize) -> Format
    requires { total ≤ length samples.now }
    ensures { says_wide result ≡ not (are_within narrow_limit (samples_of (take total samples.now))) }
{
    if all_narrow(&samples[..total]) {
        Format::Narrow
    } else {
        Format::Wide
    }
}

// The blocks behind block 0 that samples need: "k × n / 253 rounded up", or by 126 on a wide sheet.
pub fn sample_blocks(k: usize, n: usize, format: Format) -> usize
    requires { (k ≤ most_traces) × (n ≤ most_samples) }
    ensures { (result ≡ sample_blocks_needed (format_by format) k n) × (result < most_blocks) }
{
    format.blocks_for(k * n)
}

// A label among the first k is not zero. Bits above code and serial do not count.
fn any_label(labels: &[u64], k: usize) -> bool
    requires { k ≤ length labels.now }
    ensures { result ≡ not (are_zero_labels (map label_at (take k labels.now))) }
{
    labels[..k]
        .iter()
        .any(|label| *label % 281474976710656 != 0)
}

// The blocks that the labels of k traces need, 84 in each: "None are written when every label is zero".
pub fn label_blocks(labels: &[u64], k: usize) -> usize
    requires { (k ≤ length labels.now) × (k ≤ most_traces) }
    ensures { (result ≡ length (label_parts (map label_at (take k labels.now)))) × (result ≤ label_blocks_needed k) }
{
    if any_label(labels, k) {
        return (k + 83) / 84;
    }
    0
}

// The format that the library takes, by which filling goes.
pub fn judge(lent: Lent, sheet: &[u8]) -> Result<Format, Refusal>
    ensures result_value { refusal_in result ≡ first_of (writes (tables_lent lent.entry) sheet.now).conditions }
    ensures format { FindsFormat (traces_in (tables_lent lent.entry)) result }
{
    judge_tables(lent)?;
    let n = wide(field(lent.control, N));
    let k = wide(field(lent.control, TRACE_COUNT));
    let format = format_of(lent.samples, k * n);
    let blocks = 1 + sample_blocks(k, n, format) + label_blocks(lent.labels, k);
    if sheet.len() < 512 * blocks {
        return Err(Refusal::SheetLength);
    }
    Ok(format)
}
