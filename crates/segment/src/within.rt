// The distance of two segments with a limit, from the words that hold their samples.
ghost use Rattle.std.specs.Prelude.{◌≡◌, ◌≤◌, ◌<◌, length, take};
ghost use Rattle.segment.specs.Limits.{width_most, distance_most};
ghost use Rattle.segment.specs.Figures as figure;
ghost use Rattle.segment.specs.Within.{distance_within, IsFewest};
ghost use Rattle.segment.specs.Stored.{samples_of};

use crate::Word;
use crate::figures::{square_difference, stretch_distance};

// The exact distance, or by how many samples it is beyond the limit. It is no Result: neither answer is an error, and both words are the
// definition's own (`specs/Within`).
#[derive(Clone, Copy, Debug, PartialEq, Eq)]
pub enum Distance {
    Exact(u64),
    Beyond(usize),
}

// By how many samples the limit is passed, which all together pass: sample by sample from the sample `from` on, up to which `start` is the
// distance. A count without the sample that passes it does not meet this.
fn passing(x: &[Word], y: &[Word], limit: u64, from: usize, start: u64) -> usize
    requires { (length x.now ≡ length y.now) × (length x.now ≤ width_most) × (from ≤ length x.now)
        × (start ≡ figure.distance (take from (samples_of x.now)) (take from (samples_of y.now))) × (start ≤ distance_most from)
        × (start ≤ limit) × (limit < figure.distance (samples_of x.now) (samples_of y.now)) }
    ensures { IsFewest limit (samples_of x.now) (samples_of y.now) result }
{
    let mut total = start;
    for i in from..x.len() {
        total += square_difference(x[i], y[i]);
        if limit < total {
            return i + 1;
        }
    }
    x.len()
}

// The distance if it is at most the limit, else how many first samples pass the limit. It goes by sixteen; only the sixteen that pass the
// limit are gone through one by one. Any limit may be given: one that no distance passes, as 2^49, is none. (Of 2^64 - 1 the compiler would
// see that, and make no vector code.)
// The end of those sixteen in place of the sample does not meet this, nor does a limit that the distance has to stay below.
pub fn distance_within(x: &[Word], y: &[Word], limit: u64) -> Distance
    requires { (length x.now ≡ length y.now) × (length x.now ≤ width_most) }
    ensures value { result ≡ distance_within limit (samples_of x.now) (samples_of y.now) }
    ensures size { distance_most (length x.now) ≤ limit
        → figure.distance (samples_of x.now) (samples_of y.now) ≤ distance_most (length x.now) }
{
    let n = x.len();
    let mut total: u64 = 0;
    // tried: over `0..n / 16` it takes 1.07 times as long where the limit is passed, over `(0..end).step_by(16)` 1.12 times
    let mut k: usize = 0;
    while 16 <= n - k {
        let next = total + stretch_distance(x, y, k, k + 16);
        if limit < next {
            return Distance::Beyond(passing(x, y, limit, k, total));
        }
        total = next;
        k += 16;
    }
    let whole = total + stretch_distance(x, y, k, n);
    if limit < whole {
        return Distance::Beyond(passing(x, y, limit, k, total));
    }
    Distance::Exact(whole)
}
