// The leaf ahead in one of two libraries is read.
ghost use Rattle.segment.specs.Stored.{samples_of};
ghost use Rattle.search.specs.Lent.{stored_tables};
ghost use Rattle.pair_search.specs.Reading.{MayRead, ReadAhead};

use crate::sides::Side;
use search::stored::Stored;
use segment::Word;
use tables::control::field;
use tables::places::{FIRST, TRACE_COUNT};

// Takes the distances of the traces of the leaf ahead, keeps the nearest in a list of one, and notes the leaf on the library's trail.
//
// Two wrong programs that the contract rules out: one that counts only the traces that it keeps, and one that notes the leaf a place later.
pub fn read_ahead(
    stored: Stored,
    query: &[Word],
    trail: &mut [u16],
    list: &mut [u64],
    side: Side,
) -> Side
    requires { MayRead (stored_tables stored) (samples_of query.now) trail.old list.old
        side }
    ensures { ReadAhead (stored_tables stored.entry)
        (samples_of query.now) trail.old trail.new list.old list.new side result }
{
    let n = query.len();
    let count = tables::numbers::wide(field(stored.control, TRACE_COUNT));
    let Some(leaf) = side.ahead else {
        return side;
    };
    let j = leaf.number;
    let first = tables::records::node_small(stored.nodes, j, FIRST);
    let listed = side.listed;
    let r = reading::leaf::read_leaf(
        stored.samples,
        stored.links,
        n,
        count,
        first,
        query,
        list,
        listed,
        1,
    );
    let out = side.out;
    trail[out] = j as u16;
    Side {
        ahead: None,
        listed: r.listed,
        out: out + 1,
        traces: side.traces + r.traces,
    }
}
