// What a file of any bytes is: how many traces it holds, or a bad recording.

ghost use Rattle.std.specs.Prelude.{◌≡◌, ◌<◌};
ghost use Rattle.dstree.specs.Recording.{is_recording, judge_recording};
ghost use Rattle.recording.specs.FileTraces.{traces_found, traces_recorded};

use crate::header::header_fits;
use sheet::fields::four_bytes;

// Not "of any other form or length, an odd size, a sample count not a multiple of n".
fn is_recording(bytes: &[u8], n: u64) -> bool
    requires { 0 < n }
    ensures { result ≡ is_recording n bytes.now }
{
    if bytes.len() < 44 {
        return false;
    }
    let size = four_bytes(bytes, 40);
    if bytes.len() as u64 != 44 + size {
        return false;
    }
    if !header_fits(bytes) {
        return false;
    }
    if 2147483648 <= four_bytes(bytes, 24) {
        return false;
    }
    if size % 2 != 0 {
        return false;
    }
    size / 2 % n == 0
}

// How many traces of n samples a file holds, or none: a bad recording.
//
// Two wrong programs that the contract rules out: one that takes a file with a byte behind its data, and one whose sizes are numbers of 32
// bits, so that a data size of 2^32 - 36 has a RIFF size of 0.
pub fn judge_recording(bytes: &[u8], n: usize) -> Option<u64>
    requires { 0 < n }
    ensures { traces_found result ≡ traces_recorded (judge_recording n bytes.now) }
{
    if !is_recording(bytes, n as u64) {
        return None;
    }
    Some(four_bytes(bytes, 40) / 2 / n as u64)
}
