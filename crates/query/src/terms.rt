// What the segments of a node's record give to a figure of the node, each on its samples.
ghost use Rattle.std.specs.Prelude.{ℕ, ◌≡◌, ◌≤◌, ◌<◌, length};
ghost use Rattle.segment.specs.Limits.{term_most};
ghost use Rattle.segment.specs.Stored.{samples_of};
ghost use Rattle.dstree.specs.Measures.{Trace, sample_limit};
ghost use Rattle.dstree.specs.Figures.{Run, run, width};
ghost use Rattle.dstree.specs.Formed.{Limited};
ghost use Rattle.dstree.specs.Node.{Segment, most_segments, total_over};
ghost use Rattle.tables.specs.Layout.{record_places};
ghost use Rattle.tables.specs.View.{segment_in, segments_in};
ghost use Rattle.tables.specs.Runs.{Inside};
ghost use Rattle.query.specs.Bounded.{Bounded};

use prefixes::Summed;
use tables::places::{HEAD, SEGMENT, SEGMENTS};
use tables::records::small_at;

// What a segment gives.
pub trait Term {
    ghost term: { Trace → Run → Segment → ℕ };

    // The term of segment i, which is the samples `first` to `last`.
    fn of_segment(record: &[i64], query: &Summed, i: usize, first: usize, last: usize) -> u64
        requires { Inside (length query.now.trace.now) first last × (length «record».now ≡ record_places)
            × (i < most_segments) × Limited sample_limit (width (run first last)) (segment_in «record».now i) }
        ensures value { result ≡ term (samples_of query.now.trace.now) (run first last) (segment_in «record».now i) }
        ensures size { result ≤ term_most };
}

// The terms of a record's segments, totalled. Sixteen terms fit 64 bits.
pub fn terms_total<T: Term>(record: &[i64], query: &Summed) -> u64
    requires { Bounded «record».now (length query.now.trace.now) }
    ensures { result ≡ total_over (T.term (samples_of query.now.trace.now)) 1 (segments_in «record».now) }
{
    let count = small_at(record, SEGMENTS);
    let mut total: u64 = 0;
    let mut first: usize = 1;
    for i in 0..count {
        let last = small_at(record, HEAD + i * SEGMENT);
        total += T::of_segment(record, query, i, first, last);
        first = last + 1;
    }
    total
}
