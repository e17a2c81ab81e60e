// A node's record widened by a trace: the least and the greatest of each segment's figures. The head is never written, so that no threshold
// moves.

ghost use Rattle.std.specs.Prelude.{◌≡◌, ◌+◌, ◌<◌, length};
ghost use Rattle.segment.specs.Stored.{samples_of};
ghost use Rattle.dstree.specs.Figures.{run};
ghost use Rattle.dstree.specs.Adding.{widen_segment};
ghost use Rattle.dstree.specs.Node.{most_segments};
ghost use Rattle.tables.specs.Layout.{record_places};
ghost use Rattle.tables.specs.View.{segment_in};
ghost use Rattle.insertion_memory.specs.Records.{widen_record};
ghost use Rattle.insertion.specs.Widening.{range_with, with_segment, end_in, SegmentReadable, Readable};

use prefixes::Summed;
use tables::places::{HEAD, LEAST_SCATTER, LEAST_SUM, SEGMENT, SEGMENTS};
use tables::records::small_at;

// A range of a record, its least at `place` and its greatest behind that, with the figure v in it too.
pub fn widen_range(record: &mut [i64], place: usize, v: i64)
    requires { (length «record».old ≡ record_places) × (place + 1 < record_places) }
    ensures { «record».new ≡ range_with «record».old place v }
{
    record[place] = record[place].min(v);
    record[place + 1] = v.max(record[place + 1]);
}

// Segment i of a record, whose run starts at sample `first`: four places are written, and its end stays.
pub fn widen_segment(record: &mut [i64], i: usize, first: usize, trace: &Summed)
    requires { (length «record».old ≡ record_places) × (i < most_segments)
        × SegmentReadable «record».old i first (length trace.now.trace.now) }
    ensures { «record».new
        ≡ with_segment «record».old i
        (widen_segment (samples_of trace.now.trace.now) (run first (end_in «record».old i))
        (segment_in «record».old i)) }
{
    let at = HEAD + i * SEGMENT;
    let end = small_at(record, at);
    let f = trace.figures_on(first, end);
    let scatter = f.scatter as i64;
    widen_range(record, at + LEAST_SUM, f.sum);
    widen_range(record, at + LEAST_SCATTER, scatter);
}

// Every segment of a record.
pub fn widen_record(record: &mut [i64], trace: &Summed)
    requires { Readable «record».old (length trace.now.trace.now) }
    ensures { «record».new ≡ widen_record (samples_of trace.now.trace.now) «record».old }
{
    let count = small_at(record, SEGMENTS);
    let mut first: usize = 1;
    for i in 0..count {
        let end = small_at(record, HEAD + i * SEGMENT);
        widen_segment(record, i, first, trace);
        first = end + 1;
    }
}
