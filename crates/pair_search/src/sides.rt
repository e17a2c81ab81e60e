// One of two libraries that are searched together. Its next leaf is taken from its heap before it is known which library's turn it is.
ghost use Rattle.std.specs.Prelude.{◌≡◌, length};
ghost use Rattle.segment.specs.Stored.{samples_of};
ghost use Rattle.tables.specs.View.{shape_in};
ghost use Rattle.heap.specs.Lent.{SameRoom};
ghost use Rattle.leaf_order.specs.Waits.{Walkable, Waits};
ghost use Rattle.pair_search.specs.Sides.{Asked, takes_factory};

use heap::Heap;
use leaf_order::leaves::{Leaf, next_leaf};
use prefixes::Summed;

// The leaf that was taken from the heap and is not read yet, if there is one; and what was found: the nearest trace, if there is one, is
// in a list of one, `listed` long; `out` leaves and `traces` traces were read.
#[derive(Clone, Copy, PartialEq, Eq)]
pub struct Side {
    pub ahead: Option<Leaf>,
    pub listed: usize,
    pub out: usize,
    pub traces: usize,
}

// Takes the next leaf from the heap, if its bound is within the limit. The limit is the joint distance so far, which only falls: a library
// that has no leaf ahead then has none later.
//
// Two wrong programs that the contract rules out: one that passes over a leaf whose bound equals the limit, and one that forgets the leaf
// that it took.
pub fn ask(nodes: &[i64], query: &Summed, heap: &mut Heap, side: Side, limit: Option<u64>) -> Side
    requires { Walkable nodes.now (length heap.old.keys.now) (samples_of query.now.trace.now)
        × Waits (shape_in nodes.now (length heap.old.keys.now)) (samples_of query.now.trace.now) heap.old.len heap.old.keys.now }
    ensures room { SameRoom heap.old heap.new }
    ensures asked { Asked (shape_in nodes.now (length heap.old.keys.now)) (samples_of query.now.trace.now) limit side result
        heap.old heap.new }
{
    let ahead = next_leaf(nodes, query, heap, limit);
    Side { ahead, ..side }
}

// Whether the factory's next leaf comes first: the lower next bound does, of equal ones the factory's.
pub fn takes_factory(factory: Side, bench: Side) -> bool
    ensures { result ≡ takes_factory factory bench }
{
    match (factory.ahead, bench.ahead) {
        (Some(first), Some(second)) => first.bound <= second.bound,
        (Some(_), None) => true,
        (None, _) => false,
    }
}
