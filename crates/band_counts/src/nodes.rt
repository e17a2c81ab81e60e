// Node after node, by number: a parent is numbered below its children, so that what it has reached stands in their places of search work
// before they are taken.
ghost use Rattle.std.specs.Prelude.{◌≡◌, ◌+◌, ◌*◌, ◌-◌, ◌≤◌, ◌<◌, length, drop};
ghost use Rattle.segment.specs.Stored.{samples_of};
ghost use Rattle.dstree.specs.Bands.{most_edges};
ghost use Rattle.dstree.specs.Measures.{most_nodes};
ghost use Rattle.tables.specs.Layout.{record_places};
ghost use Rattle.tables.specs.Tables.{record_of};
ghost use Rattle.tables.specs.Nodes.{tree_by};
ghost use Rattle.query.specs.Bounded.{Bounded};
ghost use Rattle.band_counts.specs.Reached.{reached_below};
ghost use Rattle.band_counts.specs.Counted.{Countable, CountedTo};

use crate::edges::reached;
use prefixes::Summed;
use tables::kinds::is_leaf;
use tables::places::{FIRST, RIGHT};
use tables::records::{node_small, record_at};
use tables::walk::list_size;

// A place of search work is by_bound + PAIR_BASE * by_upper: the caller lends one number a node, and a pair of numbers needs two.
const PAIR_BASE: u64 = 32;

// What node j has reached, from what is reached above it.
fn node_pair(nodes: &[i64], j: usize, above: u64, query: &Summed, edges: &[u64]) -> u64
    requires { (j * record_places + record_places ≤ length nodes.now) × (j ≤ most_nodes) × (length edges.now ≤ most_edges)
        × Bounded (record_of nodes.now j) (length query.now.trace.now) }
    ensures { result ≡ reached_below (samples_of query.now.trace.now) edges.now above (record_of nodes.now j) }
{
    let record = record_at(nodes, j);
    let by_bound = reached(edges, query::bound::own_bound(record, query));
    let by_upper = reached(edges, query::upper::own_upper(record, query));
    by_bound.max(above % PAIR_BASE) + PAIR_BASE * by_upper.min(above / PAIR_BASE)
}

// Node j, one of m: a leaf's traces are counted, an inner node's children get what it has reached.
fn count_node(
    nodes: &[i64],
    links: &[u16],
    k: usize,
    m: usize,
    j: usize,
    query: &Summed,
    edges: &[u64],
    work: &mut [u64],
    list: &mut [u64],
)
    requires countable { Countable nodes.now links.now k m (samples_of query.now.trace.now) edges.now
        × (j < m) }
    requires counted { CountedTo (tree_by nodes.now links.now k m) (samples_of query.now.trace.now) edges.now j work.old list.old }
    ensures counted_to { CountedTo (tree_by nodes.now links.now k m) (samples_of query.now.trace.now) edges.now
        (j + 1) work.new list.new }
    ensures rest { drop (2 * (length edges.now - 1)) list.new
        ≡ drop (2 * (length edges.now - 1)) list.old }
{
    let pair = node_pair(nodes, j, work[j], query, edges);
    let first = node_small(nodes, j, FIRST);
    if is_leaf(nodes, j) {
        let traces = list_size(links, k, first) as u64;
        crate::list::count_leaf(
            list,
            edges.len() - 1,
            pair % PAIR_BASE,
            pair / PAIR_BASE,
            traces,
        );
        return;
    }
    let right = node_small(nodes, j, RIGHT);
    work[first] = pair;
    work[right] = pair;
}

// All m nodes. What stands in search work and in the list before does not matter.
pub fn count_nodes(
    nodes: &[i64],
    links: &[u16],
    k: usize,
    m: usize,
    query: &Summed,
    edges: &[u64],
    work: &mut [u64],
    list: &mut [u64],
)
    requires countable { Countable nodes.now links.now k m (samples_of query.now.trace.now) edges.now }
    requires room { (1 ≤ length work.old) × (m ≤ length work.old) × (2 * (length edges.now - 1) ≤ length list.old) }
    ensures counted_to { CountedTo (tree_by nodes.now links.now k m) (samples_of query.now.trace.now) edges.now
        m work.new list.new }
    ensures rest { drop (2 * (length edges.now - 1)) list.new
        ≡ drop (2 * (length edges.now - 1)) list.old }
{
    tables::loops::fill_first(list, 2 * (edges.len() - 1), 0);
    work[0] = PAIR_BASE * edges.len() as u64;
    for j in 0..m {
        count_node(nodes, links, k, m, j, query, edges, work, list);
    }
}
