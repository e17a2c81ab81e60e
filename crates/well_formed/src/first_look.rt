// A first look at nodes and links, in one pass over the records: each is read once, with its sibling and its parent at hand. It passes
// tables as calls leave them, where the two children of a node have the same ends. A yes says that the rules hold; a no says nothing.

ghost use Rattle.std.specs.Prelude.{◌≡◌, true, ◌<◌};
ghost use Rattle.well_formed.specs.Whole.{tree_fits, TreeLent};
ghost use Rattle.well_formed.specs.Visits.{NodesLent, NodeVisited, VisitedFirst, RecordsPassed};

// Node j, of m: its head, and its first trace number if it is a leaf, else the numbers and the records of its children.
fn node_passes(
    nodes: &[i64],
    j: usize,
    m: usize,
    n: usize,
    k: usize,
    marks: &mut [u8; 8192],
    named: &mut [u8; 4096],
) -> bool
    requires { NodesLent n m k nodes.now × (j < m) }
    ensures { result ≡ true →
        NodeVisited n m k nodes.now j marks.old marks.new named.old named.new }
{
    if !nodes_fit::nodes::head_fits(nodes, j, m, n) {
        return false;
    }
    if !numbers_fit::leaves::mark_first(nodes, j, k, named) {
        return false;
    }
    if !numbers_fit::children::mark_children(nodes, j, marks) {
        return false;
    }
    nodes_fit::nodes::children_fit(nodes, j, n)
}

// Every node.
fn nodes_pass(
    nodes: &[i64],
    m: usize,
    n: usize,
    k: usize,
    marks: &mut [u8; 8192],
    named: &mut [u8; 4096],
) -> bool
    requires { NodesLent n m k nodes.now }
    ensures { result ≡ true →
        VisitedFirst n m k nodes.now m marks.old marks.new named.old named.new }
{
    for j in 0..m {
        if !node_passes(nodes, j, m, n, k, marks, named) {
            return false;
        }
    }
    true
}

// Every record. Node 0 is no child, and each other one is, so that all were read.
fn records_pass(nodes: &[i64], m: usize, n: usize, k: usize, named: &mut [u8; 4096]) -> bool
    requires { NodesLent n m k nodes.now }
    ensures { result ≡ true → RecordsPassed n m k nodes.now named.old named.new }
{
    if m == 0 {
        return false;
    }
    if !nodes_fit::nodes::segments_fit(nodes, 0, n) {
        return false;
    }
    let mut marks = [0u8; 8192];
    if !nodes_pass(nodes, m, n, k, &mut marks, named) {
        return false;
    }
    numbers_fit::marks::all_marked(&marks, 1, m - 1)
}

pub fn passes(nodes: &[i64], links: &[u16], m: usize, n: usize, k: usize) -> bool
    requires { TreeLent n m nodes.now k links.now }
    ensures { result ≡ true → tree_fits n m nodes.now k links.now ≡ true }
{
    let mut named = [0u8; 4096];
    if !records_pass(nodes, m, n, k, &mut named) {
        return false;
    }
    numbers_fit::leaves::links_name(links, k, m, &mut named)
}
