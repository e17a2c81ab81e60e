// One word, or two: the sample that it stands for, a difference and squares, no wider than they need be, so that the compiler takes
// several at a time.
ghost use Rattle.std.specs.Prelude.{◌≡◌, ◌*◌, ◌≤◌, ◌<◌, nat_abs, ◌-ℤ◌};
ghost use Rattle.std.specs.Int.Signed.{mag};
ghost use Rattle.integer.specs.Words as words;
ghost use Rattle.segment.specs.Stored.{sample_of, word_of};
ghost use Rattle.segment.specs.Limits.{sample_most, squares_most};

use crate::{Sample, Word};

// The sample of a word: its upper 20 bits. There is no word whose sample is outside the limits.
pub fn sample_of(word: Word) -> Sample
    ensures value { result ≡ sample_of word }
    ensures size { mag result < sample_most }
{
    word >> 12
}

// The word of a sample, its low 12 bits zero.
pub fn word_of(sample: Sample) -> Word
    requires { mag sample < sample_most }
    ensures value { result ≡ word_of sample }
    ensures back { sample_of result ≡ sample }
{
    sample * 4096
}

// How far two samples are apart: 1,048,575 at most. (By `abs_diff` the greatest distance of `ranges` takes 1.12 times as long.)
pub fn apart(a: Sample, b: Sample) -> u32
    requires { (mag a < sample_most) × (mag b < sample_most) }
    ensures value { result ≡ nat_abs (a -ℤ b) }
    ensures size { result < 2 * sample_most }
{
    (a - b).unsigned_abs()
}

// The square of a word's sample. The size is widened and then squared: of that the compiler makes the machine's product of 32 bits by 32,
// two at a time. Of a number with a sign it makes none.
pub fn sample_square(word: Word) -> u64
    ensures value { result ≡ words.square (sample_of word) }
    ensures size { result ≤ squares_most 1 }
{
    let d = u64::from(sample_of(word).unsigned_abs());
    d * d
}
