// The traces below every node, in one array.

ghost use Rattle.std.specs.Prelude.{◌+◌, ◌≤◌, ◌<◌, length};
ghost use Rattle.tables.specs.Walk.{Rising, numbers_of};
ghost use Rattle.dstree.specs.Measures.{most_traces};
ghost use Rattle.tables.specs.Nodes.{tree_by, Walks};
ghost use Rattle.checking.specs.Laid.{SizesLaid, PutFrom, LaidTo, LaidOut};

use tables::kinds::is_leaf;
use tables::places::{FIRST, RIGHT};
use tables::records::node_small;
use tables::walk::behind;

// Writes the numbers of the list that starts at `head`, from a place on.
// A `for` is no plainer: the walk along the links has no range to run over.
fn put_list(links: &[u16], k: usize, head: usize, order: &mut [u16; 4096], at: usize)
    requires { (head < k) × (k ≤ most_traces) × (k ≤ length links.now) × Rising links.now k
        × (at + length (numbers_of links.now k head) ≤ most_traces) }
    ensures { PutFrom order.old order.new at (numbers_of links.now k head) }
{
    let mut place = at;
    let mut t = head;
    while t < k {
        order[place] = t as u16;
        place += 1;
        t = behind(links, k, t);
    }
}

// Node j, one of m: a leaf's numbers are written from its start on; the left child of an inner node starts where it does, the right one
// behind the left one's numbers.
fn lay_node(
    nodes: &[i64],
    links: &[u16],
    k: usize,
    m: usize,
    j: usize,
    sizes: &[u16; 8192],
    starts: &mut [u16; 8192],
    order: &mut [u16; 4096],
)
    requires { Walks nodes.now links.now k m × (j < m) × SizesLaid (tree_by nodes.now links.now k m) sizes.now 0
        × LaidTo (tree_by nodes.now links.now k m) j starts.old order.old }
    ensures { LaidTo (tree_by nodes.now links.now k m) (j + 1) starts.new order.new }
{
    let first = node_small(nodes, j, FIRST);
    let start = starts[j];
    if is_leaf(nodes, j) {
        put_list(links, k, first, order, usize::from(start));
        return;
    }
    let right = node_small(nodes, j, RIGHT);
    let size = sizes[first];
    starts[first] = start;
    starts[right] = start + size;
}

// Every node, the first one first, so that each has its start when it is taken.
pub fn lay_out(
    nodes: &[i64],
    links: &[u16],
    k: usize,
    m: usize,
    sizes: &[u16; 8192],
    starts: &mut [u16; 8192],
    order: &mut [u16; 4096],
)
    requires { Walks nodes.now links.now k m × SizesLaid (tree_by nodes.now links.now k m) sizes.now 0 }
    ensures { LaidOut (tree_by nodes.now links.now k m) sizes.now starts.new
        order.new }
{
    starts[0] = 0;
    for j in 0..m {
        lay_node(nodes, links, k, m, j, sizes, starts, order);
    }
}
