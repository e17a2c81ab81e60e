// The records of a node's two children as a split leaves them: with the same ends. One loop tests the segments of both and whether they
// keep their parent's ends. A yes says that they do; a no says nothing, as children with other ends may fit too.

ghost use Rattle.std.specs.Prelude.{◌≡◌, true, ◌⊎◌, ◌+◌, ◌≤◌, ◌<◌, length};
ghost use Rattle.dstree.specs.Measures.{most_samples};
ghost use Rattle.dstree.specs.Node.{most_segments};
ghost use Rattle.tables.specs.Layout.{segments_place, record_places};
ghost use Rattle.tables.specs.View.{small_at, segment_in};
ghost use Rattle.records_fit.specs.Fits.{Behind, Under};

use records_fit::records::{end_at, end_behind, segment_fits};
use tables::places::{HEAD, SEGMENT, SEGMENTS};
use tables::records::{small_at, value_at};

const LONGEST: usize = 256; // samples of a trace, at most

// The right end of segment i is this one.
fn ends_at(places: &[i64], i: usize, end: usize) -> bool
    requires { (length places.now ≡ record_places) × (i < most_segments) × (end ≤ most_samples) }
    ensures { result ≡ true → (segment_in places.now i).end ≡ end }
{
    value_at(places, HEAD + i * SEGMENT) == end as i64
}

// So many of the parent's ends were met, and one more if its next one is this one.
fn met(parent: &[i64], p: usize, end: usize) -> usize
    requires { (length parent.now ≡ record_places) × (p < most_segments) × (end ≤ most_samples) }
    ensures { (result ≡ p) ⊎ ((result ≡ p + 1) × ((segment_in parent.now p).end ≡ end)) }
{
    if ends_at(parent, p, end) {
        return p + 1;
    }
    p
}

// Segment i of both, behind the end before it. That no end is above n shows when the last one is n.
fn segments_fit(left: &[i64], right: &[i64], i: usize, before: usize) -> bool
    requires { (length left.now ≡ record_places) × (length right.now ≡ record_places) × (i < most_segments) × (before ≤ most_samples) }
    ensures { result ≡ true → Behind before (segment_in left.now i) × Behind before (segment_in right.now i)
        × ((segment_in right.now i).end ≡ (segment_in left.now i).end) }
{
    if !end_behind(left, i, before, LONGEST) {
        return false;
    }
    let end = end_at(left, i);
    if !ends_at(right, i, end) {
        return false;
    }
    if !segment_fits(left, i, (end - before) as u64) {
        return false;
    }
    segment_fits(right, i, (end - before) as u64)
}

// All `count` segments of both, and the parent's `many` ends.
fn segments_run(
    left: &[i64],
    right: &[i64],
    count: usize,
    parent: &[i64],
    many: usize,
    n: usize,
) -> bool
    requires { (length left.now ≡ record_places) × (length right.now ≡ record_places) × (length parent.now ≡ record_places)
        × (count ≡ small_at left.now segments_place) × (count ≡ small_at right.now segments_place)
        × (many ≡ small_at parent.now segments_place)
        × (1 ≤ count) × (count ≤ most_segments) }
    ensures { result ≡ true → Under n left.now parent.now × Under n right.now parent.now }
{
    let mut before: usize = 0;
    let mut p: usize = 0;
    for i in 0..count {
        if !segments_fit(left, right, i, before) {
            return false;
        }
        before = end_at(left, i);
        p = met(parent, p, before);
    }
    if p != many {
        return false;
    }
    before == n
}

// Both records, and the parent's.
pub fn twins_fit(left: &[i64], right: &[i64], parent: &[i64], n: usize) -> bool
    requires { (length left.now ≡ record_places) × (length right.now ≡ record_places) × (length parent.now ≡ record_places) }
    ensures { result ≡ true → Under n left.now parent.now × Under n right.now parent.now }
{
    let count = small_at(left, SEGMENTS);
    if count < 1 {
        return false;
    }
    if 16 < count {
        return false;
    }
    if small_at(right, SEGMENTS) != count {
        return false;
    }
    segments_run(left, right, count, parent, small_at(parent, SEGMENTS), n)
}
