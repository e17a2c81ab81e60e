// How many leaves a table of records has.

ghost use Rattle.std.specs.Prelude.{◌≡◌, ◌+◌, ◌*◌, ◌≤◌, length};
ghost use Rattle.tables.specs.Layout.{record_places, node_places};
ghost use Rattle.dstree.specs.Measures.{most_nodes};
ghost use Rattle.query_judging.specs.LeafCount.{leaf_in, leaf_count};

use tables::kinds::{Kind, node_kind};

// Record j is a leaf's. One of no kind reads as a leaf's too.
fn reads_as_leaf(nodes: &[i64], j: usize) -> bool
    requires { (j * record_places + record_places ≤ length nodes.now) × (j ≤ most_nodes) }
    ensures { result ≡ leaf_in nodes.now j }
{
    match node_kind(nodes, j) {
        Some(kind) => kind == Kind::Leaf,
        None => true,
    }
}

// The leaves among the first m records.
pub fn leaf_count(nodes: &[i64], m: usize) -> usize
    requires { (m * record_places ≤ length nodes.now) × (m ≤ node_places) }
    ensures { result ≡ leaf_count nodes.now m 0 }
{
    let mut total: usize = 0;
    for j in 0..m {
        total += usize::from(reads_as_leaf(nodes, j));
    }
    total
}
