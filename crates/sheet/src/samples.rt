// Samples as bytes, "two's complement", two or four of them. A stored sample is a word; what bytes say is turned into words.

ghost use Rattle.std.specs.Prelude.{◌≡◌, true, false, ◌+◌, ◌*◌, ◌≤◌, ◌<◌, length};
ghost use Rattle.std.specs.Int.Signed.{mag};
ghost use Rattle.std.proofs.lemmas.List.Edits.{sets};
ghost use Rattle.segment.specs.Limits.{sample_most, SamplesWithin};
ghost use Rattle.segment.specs.Stored.{samples_of, words_of};
ghost use Rattle.dstree.specs.Measures.{are_within};
ghost use Rattle.dstree.specs.Sheet.{part, narrow_limit, coded, coded_all, decoded};
ghost use Rattle.sheet.specs.Codes.{samples_in};
ghost use Rattle.sheet.specs.Formats.{format_by, says_wide};

use crate::fields::put_bytes;
use crate::formats::Format;
use segment::samples::{sample_of, word_of};
use segment::{Sample, Word};

// The bytes from a place on become a sample's. Two bytes do not say a sample beyond 16 bits, and nothing is asked of it: far below 0 it is
// put as zeros.
fn put_sample(bytes: &mut [u8], place: usize, sample: Sample, format: Format)
    requires { place + (format_by format).sample_bytes ≤ length bytes.old }
    ensures { bytes.new ≡ sets bytes.old place (coded (format_by format) sample) }
{
    match format {
        Format::Narrow => put_bytes(bytes, place, &sample.max(-65536).to_le_bytes()[..2]),
        Format::Wide => put_bytes(bytes, place, &sample.to_le_bytes()),
    }
}

// The bytes from a place on become the samples of words, one behind another.
pub fn put_samples(bytes: &mut [u8], place: usize, words: &[Word], format: Format)
    requires { place + (format_by format).sample_bytes * length words.now ≤ length bytes.old }
    ensures { bytes.new
        ≡ sets bytes.old place (coded_all (format_by format) (samples_of words.now)) }
{
    let size = format.sample_bytes();
    for (j, word) in words.iter().enumerate() {
        put_sample(bytes, place + size * j, sample_of(*word), format);
    }
}

// The sample that stands at a place. Two bytes say none beyond 16 bits.
pub fn sample_at(bytes: &[u8], place: usize, format: Format) -> Sample
    requires { place + (format_by format).sample_bytes ≤ length bytes.now }
    ensures value { result ≡ decoded (format_by format) (part place (format_by format).sample_bytes bytes.now) }
    ensures size { says_wide format ≡ false → mag result < narrow_limit }
{
    match format {
        Format::Narrow => Sample::from(i16::from_le_bytes([bytes[place], bytes[place + 1]])),
        Format::Wide => Sample::from_le_bytes([
            bytes[place],
            bytes[place + 1],
            bytes[place + 2],
            bytes[place + 3],
        ]),
    }
}

// The words of samples that stand one behind another. Four bytes can say samples outside the limits, for which there is no word.
pub fn copy_samples(bytes: &[u8], places: &mut [Word], format: Format)
    requires { ((format_by format).sample_bytes * length places.old ≤ length bytes.now)
        × (says_wide format ≡ true → SamplesWithin sample_most (samples_in (format_by format) (length places.old) bytes.now)) }
    ensures places_after { places.new
        ≡ words_of (samples_in (format_by format) (length places.old) bytes.now) }
    ensures back { samples_of places.new ≡ samples_in (format_by format) (length places.old) bytes.now }
{
    let size = format.sample_bytes();
    for i in 0..places.len() {
        places[i] = word_of(sample_at(bytes, size * i, format));
    }
}

// How far a sample lies from 0, or from −1 below it: what is compared with a limit.
pub fn magnitude(sample: Sample) -> u64
    ensures { result ≡ mag sample }
{
    // a cast of each: an absolute value of what is never below 0 takes three instructions more a sample
    if sample < 0 {
        return (-1 - sample) as u64;
    }
    sample as u64
}

// "fit 16 bits": the samples of all these words do.
pub fn all_narrow(words: &[Word]) -> bool
    ensures { result ≡ are_within narrow_limit (samples_of words.now) }
{
    for word in words {
        if 32768 <= magnitude(sample_of(*word)) {
            return false;
        }
    }
    true
}
