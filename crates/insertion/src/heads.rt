// The heads of records: a leaf's, an inner node's, and the first leaf of all.

ghost use Rattle.std.specs.Prelude.{◌≡◌, ◌∷◌, [], ◌++◌, ◌+◌, ◌*◌, ◌≤◌, ◌<◌, length, drop, set};
ghost use Rattle.segment.specs.Limits.{scatter_room};
ghost use Rattle.segment.specs.Stored.{samples_of};
ghost use Rattle.dstree.specs.Measures.{most_samples, most_nodes};
ghost use Rattle.dstree.specs.Adding.{segments_of};
ghost use Rattle.dstree.specs.Node.{most_segments};
ghost use Rattle.tables.specs.Layout.{head_places, record_places};
ghost use Rattle.tables.specs.Tables.{with_record};
ghost use Rattle.tables.specs.View.{small_most};
ghost use Rattle.tables.specs.Runs.{figure_by, test_by};
ghost use Rattle.insertion_memory.specs.Records.{leaf_record, inner_kind, inner_record};
ghost use Rattle.insertion_memory.specs.Memory.{on_record};
ghost use Rattle.insertion.specs.Widening.{with_segment};
ghost use Rattle.insertion.specs.Heads.{leaf_head, segment_of_parts};

use segment::Word;
use tables::kinds::Kind;
use tables::places::{
    FIRST, GREATEST_SCATTER, GREATEST_SUM, HEAD, KIND, LEAST_SCATTER, LEAST_SUM, RECORD_PLACES,
    RIGHT, RUN_FIRST, RUN_LAST, SEGMENT, SEGMENTS, THRESHOLD,
};
use tables::records::{record_end, record_start};

// A leaf's head, by its number of segments and its first trace. Its test's places become 0, and its segments stay.
pub fn write_leaf_head(record: &mut [i64], segments: usize, first: usize)
    requires { (length «record».old ≡ record_places) × (segments ≤ small_most) × (first ≤ small_most) }
    ensures { «record».new ≡ leaf_head segments first ++ drop head_places «record».old }
{
    record[KIND] = Kind::Leaf as i64;
    record[SEGMENTS] = segments as i64;
    record[FIRST] = first as i64;
    record[RIGHT] = 0;
    record[RUN_FIRST] = 0;
    record[RUN_LAST] = 0;
    record[THRESHOLD] = 0;
}

// The number of an inner node's kind.
fn kind_of(by_scatter: bool) -> i64
    ensures { result ≡ inner_kind (figure_by by_scatter) }
{
    if by_scatter {
        Kind::ByScatter as i64
    } else {
        Kind::BySum as i64
    }
}

// Node j's record, a leaf's, becomes an inner node's: kind, children and test. Its segments stay.
pub fn become_inner(
    nodes: &mut [i64],
    j: usize,
    by_scatter: bool,
    left: usize,
    right: usize,
    first: usize,
    last: usize,
    threshold: i64,
)
    requires { (j * record_places + record_places ≤ length nodes.old) × (j ≤ most_nodes)
        × (left ≤ small_most) × (right ≤ small_most) × (first ≤ small_most) × (last ≤ small_most) }
    ensures { nodes.new
        ≡ on_record (inner_record (test_by first last by_scatter threshold) left right) nodes.old j }
{
    let a = record_start(j);
    let e = record_end(j);
    let record = &mut nodes[a..e];
    record[KIND] = kind_of(by_scatter);
    record[FIRST] = left as i64;
    record[RIGHT] = right as i64;
    record[RUN_FIRST] = first as i64;
    record[RUN_LAST] = last as i64;
    record[THRESHOLD] = threshold;
}

// Segment i of a record, by its end and the least and greatest of its figures.
pub fn write_segment(
    record: &mut [i64],
    i: usize,
    end: usize,
    least_sum: i64,
    greatest_sum: i64,
    least_scatter: u64,
    greatest_scatter: u64,
)
    requires { (length «record».old ≡ record_places) × (i < most_segments) × (end ≤ small_most) × (least_scatter ≤ scatter_room)
        × (greatest_scatter ≤ scatter_room) }
    ensures { «record».new
        ≡ with_segment «record».old i (segment_of_parts end least_sum greatest_sum least_scatter greatest_scatter) }
{
    let at = HEAD + i * SEGMENT;
    record[at] = end as i64;
    record[at + LEAST_SUM] = least_sum;
    record[at + GREATEST_SUM] = greatest_sum;
    record[at + LEAST_SCATTER] = least_scatter as i64;
    record[at + GREATEST_SCATTER] = greatest_scatter as i64;
}

// The record of a leaf with the first trace alone, and one segment. Least and greatest are that trace's own figures.
fn first_record(record: &mut [i64], trace: &[Word])
    requires { (length «record».old ≡ record_places) × (length trace.now ≤ most_samples) }
    ensures { «record».new
        ≡ leaf_record (segments_of (length trace.now ∷ []) (samples_of trace.now ∷ [])) 0 }
{
    tables::loops::fill_first(record, RECORD_PLACES, 0);
    write_leaf_head(record, 1, 0);
    let f = segment::figures::figures_of(trace);
    let n = trace.len();
    write_segment(record, 0, n, f.sum, f.sum, f.scatter, f.scatter);
}

// The first trace makes leaf 0 with one segment, and its list is trace 0 alone.
pub fn first_leaf(nodes: &mut [i64], links: &mut [u16], trace: &[Word])
    requires { (record_places ≤ length nodes.old) × (1 ≤ length links.old) × (length trace.now ≤ most_samples) }
    ensures nodes_after { nodes.new
        ≡ with_record nodes.old 0
        (leaf_record (segments_of (length trace.now ∷ []) (samples_of trace.now ∷ [])) 0) }
    ensures linked { links.new ≡ set links.old 0 0 }
{
    let a = record_start(0);
    let e = record_end(0);
    first_record(&mut nodes[a..e], trace);
    links[0] = 0;
}
