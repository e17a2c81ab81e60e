// Zeroing the needed part of a table, and copying a trace into the samples.

ghost use Rattle.std.specs.Prelude.{◌≡◌, ◌+◌, ◌≤◌, length};
ghost use Rattle.std.proofs.Math.Seq.{paste};
ghost use Rattle.segment.specs.Stored.{samples_of, words_of};
ghost use Rattle.tables.specs.Tables.{filled};

use segment::Word;
use segment::samples::{sample_of, word_of};

// The first k places become z, and the places behind them stay.
pub fn fill_first<T: Copy>(table: &mut [T], k: usize, z: T)
    requires { k ≤ length table.old }
    ensures { table.new ≡ filled k z table.old }
{
    for place in table[..k].iter_mut() {
        *place = z;
    }
}

// A trace's samples, from a place of the table on. The low bits of each word are written as zero.
pub fn copy_trace(samples: &mut [Word], at: usize, trace: &[Word])
    requires { at + length trace.now ≤ length samples.old }
    ensures { samples.new
        ≡ paste samples.old at (words_of (samples_of trace.now)) (length trace.now) }
{
    for j in 0..trace.len() {
        samples[at + j] = word_of(sample_of(trace[j]));
    }
}
