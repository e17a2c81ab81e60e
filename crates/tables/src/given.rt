// Samples that a caller gives: whether they are within the limits, and their words.

ghost use Rattle.std.specs.Prelude.{◌≡◌, ◌≤◌, ltb, length, take};
ghost use Rattle.std.specs.Int.Signed.{mag};
ghost use Rattle.segment.specs.Limits.{sample_most, SamplesWithin};
ghost use Rattle.segment.specs.Stored.{samples_of};
ghost use Rattle.dstree.specs.Measures.{are_samples};

use segment::samples::word_of;
use segment::{Sample, Word};

// Whether a number is from -524,288 to 524,287.
fn is_sample(z: Sample) -> bool
    ensures { result ≡ ltb (mag z) sample_most }
{
    (-524288..524288).contains(&z)
}

// Whether all are. If not, the call is refused as 15.
pub fn are_samples(trace: &[Sample]) -> bool
    ensures { result ≡ are_samples trace.now }
{
    for z in trace {
        if !is_sample(*z) {
            return false;
        }
    }
    true
}

// The words of a trace's samples go to the first places, so that these stand for the trace.
pub fn words_of(trace: &[Sample], words: &mut [Word])
    requires { (length trace.now ≤ length words.old) × SamplesWithin sample_most trace.now }
    ensures words_after { samples_of (take (length trace.now) words.new) ≡ trace.now }
    ensures long { length words.new ≡ length words.old }
{
    for j in 0..trace.len() {
        words[j] = word_of(trace[j]);
    }
}

// The same, as the part of those places that stands for the trace.
pub fn words_for<'a>(trace: &[Sample], words: &'a mut [Word]) -> &'a [Word]
    requires { (length trace.now ≤ length words.old) × SamplesWithin sample_most trace.now }
    ensures { samples_of result.now ≡ trace.now }
{
    words_of(trace, words);
    &words[..trace.len()]
}
