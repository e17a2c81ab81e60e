// The two passes over stored traces: the smallest greatest distance of all, then the traces whose least distance is no more than that. Both
// leave a trace as soon as it is known that it does not count.

ghost use Rattle.std.specs.Prelude.{◌≡◌, ◌+◌, ◌*◌, ◌≤◌, ◌<◌, length};
ghost use Rattle.integer.specs.Written.{Noted, Written};
ghost use Rattle.dstree.specs.Measures.{most_traces};
ghost use Rattle.dstree.specs.Clipped.{smallest_greatest};
ghost use Rattle.clipping.specs.Compared.{stored_in, Figures, Comparable, is_within, those_within};

use segment::ranges::{greatest_within, is_least_within};
use segment::{Sample, Word};
use tables::runs::trace_at;

// The smallest greatest distance of stored traces. Each trace is taken as far as the smallest so far; at first that is 2^49, which no
// distance reaches. A start from 0 does not meet this, nor does a pass that ends at the first trace.
pub fn smallest_greatest(
    samples: &[Word],
    n: usize,
    count: usize,
    lows: &[Sample],
    highs: &[Sample],
) -> u64
    requires { Comparable samples.now n count lows.now highs.now × (0 < count) }
    ensures { result ≡ smallest_greatest (stored_in samples.now n count) lows.now highs.now }
{
    let mut smallest: u64 = 562949953421312;
    for t in 0..count {
        smallest = greatest_within(lows, highs, trace_at(samples, n, t), smallest);
    }
    smallest
}

// Trace t's number at a place of the list, if its least distance is at most the limit. Answers the place behind what is written.
fn note(
    samples: &[Word],
    n: usize,
    t: usize,
    lows: &[Sample],
    highs: &[Sample],
    limit: u64,
    list: &mut [u16],
    out: usize,
) -> usize
    requires { Figures n lows.now highs.now × (t * n + n ≤ length samples.now) × (t < most_traces) × (out < length list.old)
        × (out < most_traces) }
    ensures { Noted (is_within samples.now n lows.now highs.now limit t) t out result
        list.old list.new }
{
    if is_least_within(lows, highs, trace_at(samples, n, t), limit) {
        list[out] = t as u16;
        return out + 1;
    }
    out
}

// The numbers of all such traces at the list's beginning, and how many there are. The list's other places stay.
pub fn list_within(
    samples: &[Word],
    n: usize,
    count: usize,
    lows: &[Sample],
    highs: &[Sample],
    limit: u64,
    list: &mut [u16],
) -> usize
    requires { Comparable samples.now n count lows.now highs.now × (count ≤ length list.old) }
    ensures value { result ≡ length (those_within samples.now n count lows.now highs.now limit) }
    ensures list { Written (those_within samples.now n count lows.now highs.now limit)
        list.old list.new }
{
    let mut out: usize = 0;
    for t in 0..count {
        out = note(samples, n, t, lows, highs, limit, list, out);
    }
    out
}
