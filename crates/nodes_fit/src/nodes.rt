// The rules on the records in use.

ghost use Rattle.std.specs.Prelude.{◌≡◌, true, ◌+◌, ◌*◌, ◌≤◌, length};
ghost use Rattle.dstree.specs.Measures.{most_samples, most_nodes};
ghost use Rattle.tables.specs.Layout.{segments_place, record_places};
ghost use Rattle.tables.specs.Tables.{record_of};
ghost use Rattle.tables.specs.View.{small_at, segments_in};
ghost use Rattle.records_fit.specs.Fits.{head_fits, segments_hold, record_fits, ends_in, kept_at, Under, ChildrenUnder, records_fit};
ghost use Rattle.records_fit.specs.Fits.{all_kept, EndsRise, AllFit, InUse, HeadFits};

use tables::kinds::is_leaf;
use tables::places::{FIRST, RIGHT};
use tables::records::{node_small, record_at};

fn node_fits(nodes: &[i64], j: usize, m: usize, n: usize) -> bool
    requires { (j * record_places + record_places ≤ length nodes.now) × (j ≤ most_nodes) × (n ≤ most_samples) }
    ensures { result ≡ record_fits n m j (record_of nodes.now j) }
{
    records_fit::records::record_fits(record_at(nodes, j), j, m, n)
}

// Every record in use fits by itself.
pub fn records_fit(nodes: &[i64], m: usize, n: usize) -> bool
    requires { (m * record_places ≤ length nodes.now) × (m ≤ most_nodes) × (n ≤ most_samples) }
    ensures { result ≡ records_fit n m nodes.now }
{
    for j in 0..m {
        if !node_fits(nodes, j, m, n) {
            return false;
        }
    }
    true
}

fn kept(nodes: &[i64], child: usize, parent: usize) -> bool
    requires { (child * record_places + record_places ≤ length nodes.now) × (child ≤ most_nodes)
        × EndsRise (record_of nodes.now child) (small_at (record_of nodes.now child) segments_place)
        × (parent * record_places + record_places ≤ length nodes.now) × (parent ≤ most_nodes)
        × EndsRise (record_of nodes.now parent) (small_at (record_of nodes.now parent) segments_place) }
    ensures { result ≡ ends_in (segments_in (record_of nodes.now child)) (segments_in (record_of nodes.now parent)) }
{
    crate::kept::ends_kept(record_at(nodes, child), record_at(nodes, parent))
}

// Both children of node j keep its ends, if it is an inner node.
fn node_kept(nodes: &[i64], j: usize) -> bool
    requires { InUse j nodes.now }
    ensures { result ≡ kept_at nodes.now j }
{
    if is_leaf(nodes, j) {
        return true;
    }
    let left = node_small(nodes, j, FIRST);
    if !kept(nodes, left, j) {
        return false;
    }
    let right = node_small(nodes, j, RIGHT);
    kept(nodes, right, j)
}

// Every child's ends include its parent's. The records fit by themselves, so that the ends of each rise and each child has a record.
pub fn ends_kept(nodes: &[i64], m: usize) -> bool
    requires { AllFit m nodes.now }
    ensures { result ≡ all_kept m nodes.now }
{
    for j in 0..m {
        if !node_kept(nodes, j) {
            return false;
        }
    }
    true
}

// ---- in one visit to a node

// The head of node j, of m.
pub fn head_fits(nodes: &[i64], j: usize, m: usize, n: usize) -> bool
    requires { (j * record_places + record_places ≤ length nodes.now) × (j ≤ most_nodes) × (n ≤ most_samples) }
    ensures { result ≡ head_fits n m j (record_of nodes.now j) }
{
    records_fit::records::head_fits(record_at(nodes, j), j, m, n)
}

// The segments of node j.
pub fn segments_fit(nodes: &[i64], j: usize, n: usize) -> bool
    requires { (j * record_places + record_places ≤ length nodes.now) × (j ≤ most_nodes) × (n ≤ most_samples) }
    ensures { result ≡ segments_hold n (record_of nodes.now j) }
{
    records_fit::records::segments_fit(record_at(nodes, j), n)
}

fn twins_fit(nodes: &[i64], left: usize, right: usize, parent: usize, n: usize) -> bool
    requires { (left * record_places + record_places ≤ length nodes.now) × (left ≤ most_nodes)
        × (right * record_places + record_places ≤ length nodes.now) × (right ≤ most_nodes)
        × (parent * record_places + record_places ≤ length nodes.now) × (parent ≤ most_nodes) }
    ensures { result ≡ true → Under n (record_of nodes.now left) (record_of nodes.now parent)
        × Under n (record_of nodes.now right) (record_of nodes.now parent) }
{
    crate::twins::twins_fit(
        record_at(nodes, left),
        record_at(nodes, right),
        record_at(nodes, parent),
        n,
    )
}

// The segments of both children of node j hold and they keep its ends, if it is an inner node. A no says nothing.
pub fn children_fit(nodes: &[i64], j: usize, n: usize) -> bool
    requires { HeadFits j nodes.now }
    ensures { result ≡ true → ChildrenUnder n nodes.now j }
{
    if is_leaf(nodes, j) {
        return true;
    }
    twins_fit(
        nodes,
        node_small(nodes, j, FIRST),
        node_small(nodes, j, RIGHT),
        j,
        n,
    )
}
