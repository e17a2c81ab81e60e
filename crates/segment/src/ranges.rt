// How far a trace can be from a sweep of which only a low and a high figure is known per sample. These are plain samples, as a caller gives
// them; the trace is lent as words. Both distances are taken up to a limit only.
ghost use Rattle.std.specs.Prelude.{ℕ, ℤ, ◌≡◌, ◌+◌, ◌*◌, ◌-◌, ◌≤◌, ◌<◌, MatchOption, min, leb, length};
ghost use Rattle.std.specs.Int.Signed.{mag};
ghost use Rattle.segment.specs.Limits.{sample_most, SamplesWithin, distance_most, width_most};
ghost use Rattle.segment.specs.Terms.{sum_gap};
ghost use Rattle.segment.specs.Upper.{sum_reach};
ghost use Rattle.segment.specs.Clipped.{least_from, greatest_from, summed, summed_to};
ghost use Rattle.segment.specs.Stored.{sample_of, samples_of};

use crate::samples::{apart, sample_of};
use crate::{Sample, Word};

// How far a sample is from a range: 0 inside it.
fn gap(y: Sample, low: Sample, high: Sample) -> u32
    ensures { result ≡ sum_gap y low high }
{
    if y < low {
        low.abs_diff(y)
    } else if high < y {
        y.abs_diff(high)
    } else {
        0
    }
}

// What a word's sample and its range give to a distance: the square of how far they are apart, by one of two measures.
trait Reach {
    ghost reach: { ℤ → ℤ → ℤ → ℕ };

    fn square(word: Word, low: Sample, high: Sample) -> u64
        requires { (mag low < sample_most) × (mag high < sample_most) }
        ensures value { result ≡ reach (sample_of word) low high * reach (sample_of word) low high }
        ensures size { result ≤ distance_most 1 };
}

// How far the sample is from the range.
struct Least;

impl Reach for Least {
    ghost reach = { sum_gap };

    fn square(word: Word, low: Sample, high: Sample) -> u64 {
        let g = u64::from(gap(sample_of(word), low, high));
        g * g
    }
}

// How far it is from the range's farther end.
struct Greatest;

impl Reach for Greatest {
    ghost reach = { sum_reach };

    fn square(word: Word, low: Sample, high: Sample) -> u64 {
        let y = sample_of(word);
        let g = u64::from(apart(y, low).max(apart(y, high)));
        g * g
    }
}

// What the samples from `from` to before `end` add to such a distance.
fn stretch<R: Reach>(
    lows: &[Sample],
    highs: &[Sample],
    trace: &[Word],
    from: usize,
    end: usize,
) -> u64
    requires { (length lows.now ≡ length trace.now) × (length highs.now ≡ length trace.now) × (from ≤ end)
        × (end ≤ length trace.now) × (end ≤ width_most) × SamplesWithin sample_most lows.now × SamplesWithin sample_most highs.now }
    ensures result_value { summed_to R.reach lows.now highs.now (samples_of trace.now) from + result
        ≡ summed_to R.reach lows.now highs.now (samples_of trace.now) end }
    ensures size { result ≤ distance_most (end - from) }
{
    let mut total: u64 = 0;
    for i in from..end {
        total += R::square(trace[i], lows[i], highs[i]);
    }
    total
}

// Such a distance, if it is at most a limit. The trace is left once sixteen samples more have passed it.
fn summed_within<R: Reach>(
    lows: &[Sample],
    highs: &[Sample],
    trace: &[Word],
    limit: u64,
) -> Option<u64>
    requires { (length lows.now ≡ length trace.now) × (length highs.now ≡ length trace.now) × (length trace.now ≤ width_most)
        × SamplesWithin sample_most lows.now × SamplesWithin sample_most highs.now }
    ensures { MatchOption result (limit < summed R.reach lows.now highs.now (samples_of trace.now))
        (λ d. (d ≡ summed R.reach lows.now highs.now (samples_of trace.now)) × (d ≤ limit)) }
{
    let n = trace.len();
    let mut total: u64 = 0;
    for block in 0..n / 16 {
        total += stretch::<R>(lows, highs, trace, 16 * block, 16 * block + 16);
        if limit < total {
            return None;
        }
    }
    let whole = total + stretch::<R>(lows, highs, trace, 16 * (n / 16), n);
    if whole <= limit { Some(whole) } else { None }
}

// Whether the least distance is at most a limit. The distance to the nearer ends does not meet this, since a sample may lie inside its
// range; nor does a limit that the distance has to stay below.
pub fn is_least_within(lows: &[Sample], highs: &[Sample], trace: &[Word], limit: u64) -> bool
    requires { (length lows.now ≡ length trace.now) × (length highs.now ≡ length trace.now) × (length trace.now ≤ width_most)
        × SamplesWithin sample_most lows.now × SamplesWithin sample_most highs.now }
    ensures { result ≡ leb (least_from lows.now highs.now (samples_of trace.now)) limit }
{
    summed_within::<Least>(lows, highs, trace, limit).is_some()
}

// The greatest distance, or a limit where it is not below that. What is below the limit is at most one less, and so a trace is left once it
// has reached the limit. The greater of the distances to the lows and to the highs does not meet this: which end is farther differs from
// sample to sample.
pub fn greatest_within(lows: &[Sample], highs: &[Sample], trace: &[Word], limit: u64) -> u64
    requires { (length lows.now ≡ length trace.now) × (length highs.now ≡ length trace.now) × (length trace.now ≤ width_most)
        × SamplesWithin sample_most lows.now × SamplesWithin sample_most highs.now }
    ensures { result ≡ min limit (greatest_from lows.now highs.now (samples_of trace.now)) }
{
    if limit == 0 {
        return 0;
    }
    summed_within::<Greatest>(lows, highs, trace, limit - 1).unwrap_or(limit)
}
