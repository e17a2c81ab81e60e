// The records of new leaves, from their own traces.

ghost use Rattle.std.specs.Prelude.{◌≡◌, ◌+◌, ◌*◌, ◌≤◌, length};
ghost use Rattle.dstree.specs.Measures.{most_traces, most_nodes};
ghost use Rattle.dstree.specs.Adding.{segments_of};
ghost use Rattle.dstree.specs.Formed.{Rises};
ghost use Rattle.tables.specs.Layout.{record_places};
ghost use Rattle.tables.specs.Tables.{with_record};
ghost use Rattle.leaf_figures.specs.Sides.{IsStored, side_traces};
ghost use Rattle.leaf_figures.specs.Ends.{ends_of, EndsRoom};
ghost use Rattle.splitting.specs.Leaves.{with_segments, Side, side_record};

use crate::lists::first_on_side;
use insertion::heads::{write_leaf_head, write_segment};
use leaf_figures::ends::Ends;
use leaf_figures::sides::side_figures;
use leaf_figures::stored::StoredLeaf;
use leaf_figures::table::Run;
use tables::loops::fill_first;
use tables::places::RECORD_PLACES;
use tables::records::{record_end, record_start};

// The segments of a record, over the leaf's traces with a mark. Its head stays, and so does what is behind the segments.
pub fn write_segments(record: &mut [i64], leaf: StoredLeaf, marks: &[u8; 4096], mark: u8, e: Ends)
    requires { (length «record».old ≡ record_places) × IsStored leaf × (length marks.now ≡ most_traces) × EndsRoom e
        × Rises leaf.n 1 (ends_of e) }
    ensures { «record».new ≡ with_segments «record».old (segments_of (ends_of e) (side_traces leaf.entry marks.now mark)) }
{
    let at = e.at;
    let count = e.count;
    let mut first: usize = 1;
    for i in 0..count {
        let last = at[i];
        let f = side_figures(leaf, marks, mark, Run { first, last });
        write_segment(
            record,
            i,
            last,
            f.least_sum,
            f.greatest_sum,
            f.least_scatter,
            f.greatest_scatter,
        );
        first = last + 1;
    }
}

// Node j's record becomes a new leaf's: zeros, the head, then segment by segment.
pub fn write_leaf(
    nodes: &mut [i64],
    j: usize,
    leaf: StoredLeaf,
    marks: &[u8; 4096],
    mark: u8,
    e: Ends,
)
    requires { (j * record_places + record_places ≤ length nodes.old) × (j ≤ most_nodes) × Side leaf marks.now mark e }
    ensures { nodes.new ≡ with_record nodes.old j (side_record leaf.entry marks.now mark (ends_of e)) }
{
    let first = first_on_side(leaf.links, leaf.k, leaf.head, marks, mark);
    let record = &mut nodes[record_start(j)..record_end(j)];
    fill_first(record, RECORD_PLACES, 0);
    write_leaf_head(record, e.count, first);
    write_segments(record, leaf, marks, mark, e);
}
