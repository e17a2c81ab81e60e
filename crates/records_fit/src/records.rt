// The rules on one record.

ghost use Rattle.std.specs.Prelude.{◌≡◌, ℕ, ◌≤◌, ◌<◌, length};
ghost use Rattle.dstree.specs.Measures.{sample_limit, most_samples};
ghost use Rattle.dstree.specs.Figures.{run};
ghost use Rattle.dstree.specs.Node.{inner, most_segments};
ghost use Rattle.dstree.specs.WellFormed.{segment_fits, test_fits};
ghost use Rattle.tables.specs.Layout.{record_places};
ghost use Rattle.tables.specs.Kinds.{number_of};
ghost use Rattle.tables.specs.View.{small_most, small_of, segment_in};
ghost use Rattle.records_fit.specs.Fits.{figure_named, between, child_fits, head_fits, segments_hold, record_fits, segments_in_from};
ghost use Rattle.records_fit.specs.Fits.{rest_holds};

use crate::figures::{figures_fit, scatter_threshold_fits, sum_threshold_fits};
use tables::kinds::{Kind, kind_at};
use tables::places::{
    FIRST, GREATEST_SCATTER, GREATEST_SUM, HEAD, LEAST_SCATTER, LEAST_SUM, RIGHT, RUN_FIRST,
    RUN_LAST, SEGMENT, SEGMENTS, THRESHOLD,
};
use tables::records::{small_at, value_at};

// ---- segments

// A field holds a number above `low`, `high` at most. It is tested as it stands, which spares reading it as a small number first.
fn between(low: usize, high: usize, v: i64) -> bool
    requires { (low ≤ high) × (high ≤ most_samples) }
    ensures { result ≡ between low high (small_of v) }
{
    if v <= low as i64 {
        return false;
    }
    v <= high as i64
}

// The right end of segment i, from 0, is behind the end before it, and n at most.
pub fn end_behind(places: &[i64], i: usize, before: usize, n: usize) -> bool
    requires { (length places.now ≡ record_places) × (i < most_segments) × (before ≤ n) × (n ≤ most_samples) }
    ensures { result ≡ between before n (segment_in places.now i).end }
{
    between(before, n, value_at(places, HEAD + i * SEGMENT))
}

// A field that is known to hold a small number.
fn known(v: i64) -> usize
    requires { small_of v ≤ small_most }
    ensures { result ≡ small_of v }
{
    v as usize
}

// The right end of segment i, which was tested.
pub fn end_at(places: &[i64], i: usize) -> usize
    requires { (length places.now ≡ record_places) × (i < most_segments) × ((segment_in places.now i).end ≤ most_samples) }
    ensures { result ≡ (segment_in places.now i).end }
{
    known(value_at(places, HEAD + i * SEGMENT))
}

// The figures of segment i, which is w samples wide.
pub fn segment_fits(places: &[i64], i: usize, w: u64) -> bool
    requires { (length places.now ≡ record_places) × (i < most_segments) × (w ≤ most_samples) }
    ensures { result ≡ segment_fits sample_limit w (segment_in places.now i) }
{
    let at = HEAD + i * SEGMENT;
    let least_sum = value_at(places, at + LEAST_SUM);
    let greatest_sum = value_at(places, at + GREATEST_SUM);
    let least_scatter = value_at(places, at + LEAST_SCATTER);
    let greatest_scatter = value_at(places, at + GREATEST_SCATTER);
    figures_fit(w, least_sum, greatest_sum, least_scatter, greatest_scatter)
}

// The first `count` segments: their ends rise to n, and their figures are in their limits.
fn segments_run(places: &[i64], count: usize, n: usize) -> bool
    requires { (length places.now ≡ record_places) × (count ≤ most_segments) × (n ≤ most_samples) }
    ensures { result ≡ rest_holds n 0 (segments_in_from places.now count 0) }
{
    let mut before: usize = 0;
    for i in 0..count {
        if !end_behind(places, i, before, n) {
            return false;
        }
        let end = end_at(places, i);
        if !segment_fits(places, i, (end - before) as u64) {
            return false;
        }
        before = end;
    }
    before == n
}

// All segments of a record, which are 1 to 16.
pub fn segments_fit(places: &[i64], n: usize) -> bool
    requires { (length places.now ≡ record_places) × (n ≤ most_samples) }
    ensures { result ≡ segments_hold n places.now }
{
    let count = small_at(places, SEGMENTS);
    if count < 1 {
        return false;
    }
    if 16 < count {
        return false;
    }
    segments_run(places, count, n)
}

// ---- the head

fn child_fits(m: usize, j: usize, child: usize) -> bool
    ensures { result ≡ child_fits m j child }
{
    if child <= j {
        return false;
    }
    child < m
}

// A test: its run lies inside 1 to n, and its threshold within the limits.
fn test_fits(kind: Kind, first: usize, last: usize, threshold: i64, n: usize) -> bool
    requires { n ≤ most_samples }
    ensures { (left right : ℕ) →
        result ≡ test_fits sample_limit n
        (inner (record { on = run first last; figure = figure_named (number_of kind); threshold = threshold }) left right) }
{
    if first < 1 {
        return false;
    }
    if last < first {
        return false;
    }
    if n < last {
        return false;
    }
    let w = (last + 1 - first) as u64;
    match kind {
        Kind::BySum => sum_threshold_fits(w, threshold),
        _ => scatter_threshold_fits(w, threshold),
    }
}

// The kind of node j, and if it is an inner node its children and its test.
pub fn head_fits(places: &[i64], j: usize, m: usize, n: usize) -> bool
    requires { (length places.now ≡ record_places) × (n ≤ most_samples) }
    ensures { result ≡ head_fits n m j places.now }
{
    let Some(kind) = kind_at(places) else {
        return false;
    };
    if kind == Kind::Leaf {
        return true;
    }
    if !child_fits(m, j, small_at(places, FIRST)) {
        return false;
    }
    if !child_fits(m, j, small_at(places, RIGHT)) {
        return false;
    }
    let first = small_at(places, RUN_FIRST);
    let last = small_at(places, RUN_LAST);
    test_fits(kind, first, last, value_at(places, THRESHOLD), n)
}

// All that the record of node j, of m, shows by itself.
pub fn record_fits(places: &[i64], j: usize, m: usize, n: usize) -> bool
    requires { (length places.now ≡ record_places) × (n ≤ most_samples) }
    ensures { result ≡ record_fits n m j places.now }
{
    if !head_fits(places, j, m, n) {
        return false;
    }
    segments_fit(places, n)
}
