// How many traces are below each node.

ghost use Rattle.std.specs.Prelude.{◌≡◌, ◌+◌, ◌<◌, length};
ghost use Rattle.dstree.specs.Checking.{traces_below};
ghost use Rattle.tables.specs.Nodes.{tree_by, Walks};
ghost use Rattle.checking.specs.Laid.{SizesLaid};

use tables::kinds::is_leaf;
use tables::places::{FIRST, RIGHT};
use tables::records::node_small;
use tables::walk::list_size;

// Of node j, one of m: its own traces, or those of its children, which are numbered above it.
fn node_size(
    nodes: &[i64],
    links: &[u16],
    k: usize,
    m: usize,
    j: usize,
    sizes: &[u16; 8192],
) -> usize
    requires { Walks nodes.now links.now k m × (j < m) × SizesLaid (tree_by nodes.now links.now k m) sizes.now (j + 1) }
    ensures { result ≡ length (traces_below (tree_by nodes.now links.now k m) j) }
{
    let first = node_small(nodes, j, FIRST);
    if is_leaf(nodes, j) {
        return list_size(links, k, first);
    }
    let right = node_small(nodes, j, RIGHT);
    usize::from(sizes[first]) + usize::from(sizes[right])
}

// Of every node, the last one first.
pub fn fill_sizes(nodes: &[i64], links: &[u16], k: usize, m: usize, sizes: &mut [u16; 8192])
    requires { Walks nodes.now links.now k m }
    ensures { SizesLaid (tree_by nodes.now links.now k m) sizes.new 0 }
{
    for j in (0..m).rev() {
        let size = node_size(nodes, links, k, m, j, sizes);
        sizes[j] = size as u16;
    }
}
