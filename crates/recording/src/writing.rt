// One trace as a file.

ghost use Rattle.std.specs.Prelude.{◌≡◌, ◌+◌, ◌*◌, ◌≤◌, ◌<◌, length};
ghost use Rattle.segment.specs.Stored.{samples_of};
ghost use Rattle.dstree.specs.Measures.{most_samples};
ghost use Rattle.dstree.specs.Book.{over};
ghost use Rattle.dstree.specs.Recording.{header_size, rate_limit, recording_of};

use crate::header::put_header;
use segment::Word;
use sheet::formats::Format;
use sheet::samples::put_samples;

// The recording of a trace, in the first places of a buffer; the rest of it stays.
pub fn write_recording(buffer: &mut [u8], rate: u64, trace: &[Word])
    requires { (rate < rate_limit) × (length trace.now ≤ most_samples) × (header_size + 2 * length trace.now ≤ length buffer.old) }
    ensures { buffer.new ≡ over (recording_of rate (samples_of trace.now)) buffer.old }
{
    put_header(buffer, rate, 2 * trace.len() as u64);
    put_samples(buffer, 44, trace, Format::Narrow);
}
