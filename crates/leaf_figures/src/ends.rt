// A node's right ends by value, and one more of them.

ghost use Rattle.std.specs.Prelude.{◌≡◌, ◌<◌, ◌≤◌, length};
ghost use Rattle.dstree.specs.Node.{ends, most_segments};
ghost use Rattle.dstree.specs.Adding.{cut_at};
ghost use Rattle.tables.specs.Layout.{record_places, segments_place};
ghost use Rattle.tables.specs.View.{small_at, segments_in};
ghost use Rattle.leaf_figures.specs.Ends.{ends_of, EndsRoom, place_in};

use tables::places::{HEAD, SEGMENT, SEGMENTS};
use tables::records::small_at;

// The first `count` places hold the ends; the others are not looked at. No Vec: nothing is allocated here.
#[derive(Clone, Copy)]
pub struct Ends {
    pub at: [usize; 16],
    pub count: usize,
}

// The right ends of a node's record.
pub fn ends_of(record: &[i64]) -> Ends
    requires { (length «record».now ≡ record_places) × (small_at «record».now segments_place ≤ most_segments) }
    ensures result_value { ends_of result ≡ ends (segments_in «record».now) }
    ensures room { EndsRoom result }
{
    let count = small_at(record, SEGMENTS);
    let mut at = [0usize; 16];
    for i in 0..count {
        at[i] = small_at(record, HEAD + i * SEGMENT);
    }
    Ends { at, count }
}

// How many of the ends are passed before the first that is above `middle`.
fn place_of(e: Ends, middle: usize) -> usize
    requires { EndsRoom e }
    ensures value { result ≡ place_in middle (ends_of e) }
    ensures inside { result ≤ e.count }
{
    let at = e.at;
    let count = e.count;
    for i in 0..count {
        if middle < at[i] {
            return i;
        }
    }
    count
}

// The ends with one more, in its place: those above it move up by one.
pub fn with_cut(e: Ends, middle: usize) -> Ends
    requires { EndsRoom e × (e.count < most_segments) }
    ensures result_value { ends_of result ≡ cut_at middle (ends_of e) }
    ensures room { EndsRoom result }
{
    let place = place_of(e, middle);
    let from = e.at;
    let count = e.count;
    let mut at = e.at;
    at[place] = middle;
    for i in place..count {
        at[i + 1] = from[i];
    }
    Ends {
        at,
        count: count + 1,
    }
}
