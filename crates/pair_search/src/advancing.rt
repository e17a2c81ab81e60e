// A turn of one library: its leaf ahead is read, and the next is taken from its heap.
ghost use Rattle.std.specs.Prelude.{length, ◌≡◌};
ghost use Rattle.segment.specs.Stored.{samples_of};
ghost use Rattle.tables.specs.Tables.{node_count};
ghost use Rattle.tables.specs.View.{shape_in};
ghost use Rattle.heap.specs.Lent.{SameRoom};
ghost use Rattle.leaf_order.specs.Waits.{Waits};
ghost use Rattle.search.specs.Lent.{stored_tables};
ghost use Rattle.pair_search.specs.Reading.{MayRead};
ghost use Rattle.pair_search.specs.Advancing.{Advanced};

use crate::sides::Side;
use heap::Heap;
use prefixes::Summed;
use search::stored::Stored;

// `other` is how far the other library's nearest lets the search go.
//
// Two wrong programs that the contract rules out: one that asks within its own nearest alone, and one that asks before it has read.
pub fn advance(
    stored: Stored,
    query: &Summed,
    heap: &mut Heap,
    trail: &mut [u16],
    list: &mut [u64],
    side: Side,
    other: Option<u64>,
) -> Side
    requires { MayRead (stored_tables stored) (samples_of query.now.trace.now) trail.old list.old
        side
        × (length heap.old.keys.now ≡ node_count (stored_tables stored))
        × Waits (shape_in stored.nodes.now (length heap.old.keys.now)) (samples_of query.now.trace.now) heap.old.len heap.old.keys.now }
    ensures room { SameRoom heap.old heap.new }
    ensures advanced { Advanced (stored_tables stored.entry)
        (samples_of query.now.trace.now) heap.old heap.new trail.old trail.new list.old
        list.new other side result }
{
    let read = crate::leaf_ahead::read_ahead(stored, query.trace, trail, list, side);
    let listed = read.listed;
    let own = crate::limits::limit_in(list, listed);
    let limit = crate::limits::nearer_of(own, other);
    crate::sides::ask(stored.nodes, query, heap, read, limit)
}
