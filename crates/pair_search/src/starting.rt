// One library before anything is read.
ghost use Rattle.std.specs.Prelude.{◌≡◌, ◌<◌, length};
ghost use Rattle.segment.specs.Stored.{samples_of};
ghost use Rattle.tables.specs.View.{shape_in};
ghost use Rattle.heap.specs.Lent.{SameRoom};
ghost use Rattle.leaf_order.specs.Waits.{Walkable};
ghost use Rattle.pair_search.specs.Visiting.{Started};

use crate::sides::Side;
use heap::Heap;
use prefixes::Summed;

// Takes the first leaf from the heap, which has a place for each node, and no key yet; an empty library has no node, and no leaf.
pub fn start(nodes: &[i64], query: &Summed, heap: &mut Heap) -> Side
    requires { (0 < length heap.old.keys.now → Walkable nodes.now (length heap.old.keys.now) (samples_of query.now.trace.now))
        × (heap.old.len ≡ 0) }
    ensures room { SameRoom heap.old heap.new }
    ensures started { Started (shape_in nodes.now (length heap.old.keys.now)) (samples_of query.now.trace.now) result
        heap.new }
{
    let nothing = Side {
        ahead: None,
        listed: 0,
        out: 0,
        traces: 0,
    };
    if heap.capacity() == 0 {
        return nothing;
    }
    leaf_order::leaves::begin(nodes, query, heap);
    crate::sides::ask(nodes, query, heap, nothing, None)
}
