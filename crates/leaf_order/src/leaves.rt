// The leaves of a tree, by bound and then by number, one at a time.
ghost use Rattle.std.specs.Prelude.{◌≡◌, ◌+◌, ◌≤◌, ◌<◌, length, get_or};
ghost use Rattle.segment.specs.Stored.{samples_of};
ghost use Rattle.heap.specs.Lent.{SameRoom};
ghost use Rattle.tables.specs.Layout.{kind_place};
ghost use Rattle.tables.specs.Tables.{record_of};
ghost use Rattle.tables.specs.View.{small_at, shape_in};
ghost use Rattle.best_first.specs.NodeKeys.{key_of, bounds_below};
ghost use Rattle.leaf_order.specs.Waits.{Walkable, Waits, Begun, ChildrenPushed};
ghost use Rattle.leaf_order.specs.Handed.{Handed};

use crate::keys::KEY_BASE;
use heap::Heap;
use prefixes::Summed;
use tables::kinds::is_leaf;
use tables::places::{FIRST, RIGHT};
use tables::records::node_small;

// A leaf that is handed out.
#[derive(Clone, Copy, PartialEq, Eq)]
pub struct Leaf {
    pub bound: u64,
    pub number: usize,
}

// The heap has a place for each node, and no key yet. One waits then, for all leaves.
pub fn begin(nodes: &[i64], query: &Summed, heap: &mut Heap)
    requires { Walkable nodes.now (length heap.old.keys.now) (samples_of query.now.trace.now)
        × (heap.old.len ≡ 0) }
    ensures room { SameRoom heap.old heap.new }
    ensures one { heap.new.len ≡ 1 }
    ensures begun { Begun (shape_in nodes.now (length heap.old.keys.now)) (samples_of query.now.trace.now)
        heap.new.keys.now }
{
    let root = crate::keys::node_key(nodes, 0, 0, query);
    heap.push(root);
}

// The keys of an inner node's children wait in the stead of its own, the least: one takes its place, and is not below it, since a child's
// bound is at least its parent's and its number is higher.
fn open_node(nodes: &[i64], query: &Summed, heap: &mut Heap, j: usize, above: u64)
    requires walkable { Walkable nodes.now (length heap.old.keys.now) (samples_of query.now.trace.now)
        × (0 < heap.old.len) × (heap.old.len < length heap.old.keys.now) }
    requires inner { (j < length heap.old.keys.now) × (above < bounds_below) × (1 ≤ small_at (record_of nodes.now j) kind_place)
        × (get_or heap.old.keys.now 0 0 ≤ key_of above j) }
    ensures room { SameRoom heap.old heap.new }
    ensures more { heap.new.len ≡ heap.old.len + 1 }
    ensures pushed { ChildrenPushed (shape_in nodes.now (length heap.old.keys.now)) (samples_of query.now.trace.now) heap.old.len
        (record_of nodes.now j) above heap.old.keys.now heap.new.keys.now }
{
    let first = node_small(nodes, j, FIRST);
    let second = node_small(nodes, j, RIGHT);
    let right = crate::keys::node_key(nodes, second, above, query);
    let left = crate::keys::node_key(nodes, first, above, query);
    heap.replace_least(right);
    heap.push(left);
}

// Hands out the next leaf, if its bound is within the limit. A node whose bound is past the limit is not opened.
//
// Two wrong programs that the contract rules out: one that ends at a bound equal to the limit, and one that hands out a leaf before an
// inner node with a lesser key.
pub fn next_leaf(nodes: &[i64], query: &Summed, heap: &mut Heap, limit: Option<u64>) -> Option<Leaf>
    requires { Walkable nodes.now (length heap.old.keys.now) (samples_of query.now.trace.now)
        × Waits (shape_in nodes.now (length heap.old.keys.now)) (samples_of query.now.trace.now) heap.old.len heap.old.keys.now }
    ensures room { SameRoom heap.old heap.new }
    ensures handed { Handed (shape_in nodes.now (length heap.old.keys.now)) (samples_of query.now.trace.now)
        limit heap.old.len heap.new.len heap.old.keys.now heap.new.keys.now result }
{
    while let Some(x) = heap.peek() {
        let bound = x / KEY_BASE;
        if crate::keys::is_past(bound, limit) {
            return None;
        }
        let number = (x % KEY_BASE) as usize;
        if is_leaf(nodes, number) {
            heap.pop();
            return Some(Leaf { bound, number });
        }
        open_node(nodes, query, heap, number, bound);
    }
    None
}
