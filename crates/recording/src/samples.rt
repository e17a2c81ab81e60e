// The traces of a sound file, one at a time, each as the words of its samples.

ghost use Rattle.std.specs.Prelude.{◌≡◌, [], length, get_or};
ghost use Rattle.segment.specs.Stored.{samples_of};
ghost use Rattle.dstree.specs.Recording.{recorded_traces};
ghost use Rattle.recording.specs.HoldsTrace.{HoldsTrace};

use segment::Word;
use sheet::formats::Format;
use sheet::samples::copy_samples;

// A trace by its number. Its samples stand one behind another.
pub fn read_trace(bytes: &[u8], number: usize, trace: &mut [Word])
    requires { HoldsTrace (length trace.old) bytes.now number }
    ensures { samples_of trace.new ≡ get_or (recorded_traces (length trace.old) bytes.now) number [] }
{
    let n = trace.len();
    let from = 44 + 2 * (number * n);
    copy_samples(&bytes[from..from + 2 * n], trace, Format::Narrow);
}
