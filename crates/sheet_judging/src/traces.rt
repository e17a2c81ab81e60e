// The traces that an accepted sheet holds, one at a time, each as the words of its samples.

ghost use Rattle.std.specs.Prelude.{◌≡◌, true, [], ◌+◌, ◌*◌, ◌-◌, ◌≤◌, ◌<◌, length, get_or};
ghost use Rattle.std.proofs.Math.Option.{none};
ghost use Rattle.segment.specs.Limits.{sample_most, SamplesWithin};
ghost use Rattle.segment.specs.Stored.{samples_of, words_of};
ghost use Rattle.dstree.specs.Refusals.{first_of};
ghost use Rattle.dstree.specs.SheetWidths.{sheet_conditions};
ghost use Rattle.sheet.specs.Formats.{format_by, says_wide};
ghost use Rattle.sheet_blocks.specs.Blocks.{InBlocks, label_start};
ghost use Rattle.sheet_blocks.specs.Traces.{size_of, count_of, sheet_traces, sample_number, IsAt, samples_from};

use segment::Word;
use sheet::formats::Format;
use sheet::samples::copy_samples;
use sheet_blocks::blocks::{Cursor, format_in};

// As many samples as there are places, from the cursor on; and the cursor behind them. They are read by stretches, each in one block;
// how long a stretch is shows in its turn, so that no range counts them.
pub fn read_samples(sheet: &[u8], from: Cursor, places: &mut [Word], format: Format) -> Cursor
    requires { InBlocks sheet.now
        × IsAt (format_by format) from.number from.used (sample_number (format_by format) from.number from.used)
        × (sample_number (format_by format) from.number from.used + length places.old
        ≤ (label_start sheet.now - 1) * (format_by format).samples_per_block)
        × (says_wide format ≡ true → SamplesWithin sample_most
        (samples_from (format_by format) sheet.now (sample_number (format_by format) from.number from.used) (length places.old))) }
    ensures { (places.new ≡ words_of (samples_from (format_by format) sheet.now
        (sample_number (format_by format) from.number from.used) (length places.old)))
        × IsAt (format_by format) result.number result.used
        (sample_number (format_by format) from.number from.used + length places.old) }
{
    let n = places.len();
    let size = format.sample_bytes();
    let mut cursor = from;
    let mut i = 0;
    while i < n {
        let k = cursor.stretch(n - i, format);
        let place = cursor.place(format);
        copy_samples(
            &sheet[place..place + size * k],
            &mut places[i..i + k],
            format,
        );
        cursor = cursor.pass(k, format);
        i += k;
    }
    cursor
}

// A trace by its number, of a sheet that is not refused.
pub fn read_trace(sheet: &[u8], number: usize, trace: &mut [Word])
    requires { (first_of (sheet_conditions sheet.now) ≡ none) × (number < count_of sheet.now)
        × (length trace.old ≡ size_of sheet.now) }
    ensures { samples_of trace.new ≡ get_or (sheet_traces sheet.now) number [] }
{
    let format = format_in(sheet);
    let from = Cursor::at_sample(number * trace.len(), format);
    read_samples(sheet, from, trace, format);
}
