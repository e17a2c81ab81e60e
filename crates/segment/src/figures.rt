// The figures of a segment, and the distance of two, from the words that hold their samples. Sizes are bounded by the number of samples, so
// that a caller's totals fit.
ghost use Rattle.std.specs.Prelude.{◌≡◌, ◌+◌, ◌*◌, ◌-◌, ◌≤◌, nat_abs, ◌-ℤ◌, length, take};
ghost use Rattle.integer.specs.Words as words;
ghost use Rattle.segment.specs.Limits.{sum_most, squares_most, scatter_most, distance_most, sum_room, squares_room, width_most};
ghost use Rattle.segment.specs.Figures as figure;
ghost use Rattle.segment.specs.Stored.{sample_of, samples_of};

use crate::Word;
use crate::samples::{apart, sample_of, sample_square};

// What holds the product of two differences, which has 40 bits.
type Product = u64;

// The square of a number of at most 28 bits, the most that a difference of two sums has.
pub fn square(z: i64) -> u64
    requires { nat_abs z ≤ 2 * sum_room }
    ensures { result ≡ words.square z }
{
    (z * z) as u64
}

// A segment's sum. A sum of the samples' sizes, or one that leaves the first sample out, does not meet this.
// The total has 32 bits, which hold that of 256 samples of 20: the compiler then adds four at a time, and at 64 bits two.
pub fn sum(samples: &[Word]) -> i64
    requires { length samples.now ≤ width_most }
    ensures value { result ≡ figure.sum (samples_of samples.now) }
    ensures size { nat_abs result ≤ sum_most (length samples.now) }
{
    let mut total: i32 = 0;
    for word in samples {
        total += sample_of(*word);
    }
    i64::from(total)
}

// What the words from `from` to before `end` add to the sum of squares.
fn stretch_squares(samples: &[Word], from: usize, end: usize) -> u64
    requires { (from ≤ end) × (end ≤ length samples.now) × (end ≤ width_most) }
    ensures result_value { figure.sum_of_squares (take from (samples_of samples.now)) + result
        ≡ figure.sum_of_squares (take end (samples_of samples.now)) }
    ensures size { result ≤ squares_most (end - from) }
{
    let mut total: u64 = 0;
    for i in from..end {
        total += sample_square(samples[i]);
    }
    total
}

// The sum of the squares of a segment's samples. The square of the sum does not meet this. No total of 256 samples is above 2^46, so that
// the test never holds. But with a way out of its loop the compiler takes each sixteen at once, and without one it does not; nor does it
// where it sees that the test is idle, as one against 2^64 - 1.
pub fn sum_of_squares(samples: &[Word]) -> u64
    requires { length samples.now ≤ width_most }
    ensures value { result ≡ figure.sum_of_squares (samples_of samples.now) }
    ensures size { result ≤ squares_most (length samples.now) }
{
    let n = samples.len();
    let mut total: u64 = 0;
    for block in 0..n / 16 {
        let next = total + stretch_squares(samples, 16 * block, 16 * block + 16);
        if 70368744177664 < next {
            return next;
        }
        total = next;
    }
    total + stretch_squares(samples, 16 * (n / 16), n)
}

// The scatter of w samples with the sum s and the sum of squares q. The limits leave room for samples of 20 bits.
pub fn scatter_from(w: u64, s: i64, q: u64) -> u64
    requires { (w ≤ width_most) × (nat_abs s ≤ sum_room) × (q ≤ squares_room) × (words.square s ≤ w * q) }
    ensures { result ≡ w * q - words.square s }
{
    w * q - square(s)
}

// Both figures of a segment.
#[derive(Clone, Copy, Debug, PartialEq, Eq)]
pub struct Figures {
    pub sum: i64,
    pub scatter: u64,
}

// A segment's sum and scatter. The squared deviation times w, and the variance, do not meet this: the scatter has the factor w twice. There
// is a loop for each total: of one loop with totals of two widths the compiler makes no vector code.
pub fn figures_of(samples: &[Word]) -> Figures
    requires { length samples.now ≤ width_most }
    ensures sum { (result.sum ≡ figure.sum (samples_of samples.now))
        × (nat_abs result.sum ≤ sum_most (length samples.now)) }
    ensures scatter { result.scatter ≡ figure.scatter (samples_of samples.now) }
    ensures size { result.scatter ≤ scatter_most (length samples.now) }
{
    let w = samples.len() as u64;
    let sum = sum(samples);
    let squares = sum_of_squares(samples);
    Figures {
        sum,
        scatter: scatter_from(w, sum, squares),
    }
}

// The square of the difference of two words' samples: below 2^40. The difference is widened before it is squared. Of that the compiler
// makes the machine's product of 32 bits by 32, two at a time.
pub fn square_difference(a: Word, b: Word) -> u64
    ensures value { result ≡ words.square (sample_of a -ℤ sample_of b) }
    ensures size { result ≤ distance_most 1 }
{
    let d = Product::from(apart(sample_of(a), sample_of(b)));
    u64::from(d * d)
}

// What the words from `from` to before `end` add to the distance. Where the compiler sees that they are sixteen, it takes them all at
// once, four to a register.
pub fn stretch_distance(x: &[Word], y: &[Word], from: usize, end: usize) -> u64
    requires { (length x.now ≡ length y.now) × (from ≤ end) × (end ≤ length x.now) × (end ≤ width_most) }
    ensures result_value { figure.distance (take from (samples_of x.now)) (take from (samples_of y.now)) + result
        ≡ figure.distance (take end (samples_of x.now)) (take end (samples_of y.now)) }
    ensures size { result ≤ distance_most (end - from) }
{
    let mut total: u64 = 0;
    for i in from..end {
        total += square_difference(x[i], y[i]);
    }
    total
}
