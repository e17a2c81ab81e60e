// Well-formed tables: the test that every call on made tables makes before it trusts them. It takes tables of any contents, reads each used
// record and link a fixed number of times, and writes none of them: its marks are its own.
#![tactic(auto)]

pub mod first_look; // all of it in one pass, for tables as calls leave them
pub mod judging; // what lent tables are refused for

ghost use Rattle.std.specs.Prelude.{◌≡◌, [], ◌≤◌};
ghost use Rattle.dstree.specs.Measures.{most_traces};
ghost use Rattle.tables.specs.Tables.{tables};
ghost use Rattle.tables.specs.View.{well_formed};
ghost use Rattle.tables.specs.Answers.{Lends};
ghost use Rattle.well_formed.specs.Whole.{counts_fit, tree_fits, TreeLent};

use tables::control::field;
use tables::numbers::wide;
use tables::places::{CAPACITY, N, NODE_COUNT, TRACE_COUNT};

// The counts, before any record is read: of k traces there are 2k − 1 nodes at most, and a table holds as many records.
fn counts_fit(m: usize, k: usize, capacity: usize) -> bool
    requires { capacity ≤ most_traces }
    ensures { result ≡ counts_fit m k capacity }
{
    if capacity < k {
        return false;
    }
    if k == 0 {
        return m == 0;
    }
    if m == 0 {
        return false;
    }
    m < 2 * k
}

// The rules on nodes and links, one after the other.
fn one_by_one(nodes: &[i64], links: &[u16], m: usize, n: usize, k: usize) -> bool
    requires { TreeLent n m nodes.now k links.now }
    ensures { result ≡ tree_fits n m nodes.now k links.now }
{
    if !nodes_fit::nodes::records_fit(nodes, m, n) {
        return false;
    }
    if !nodes_fit::nodes::ends_kept(nodes, m) {
        return false;
    }
    if !numbers_fit::children::children_once(nodes, m) {
        return false;
    }
    numbers_fit::leaves::leaves_hold(nodes, m, links, k)
}

// A first look passes what calls made. What it does not pass may still be well formed, or not.
fn tree_fits(nodes: &[i64], links: &[u16], m: usize, n: usize, k: usize) -> bool
    requires { TreeLent n m nodes.now k links.now }
    ensures { result ≡ tree_fits n m nodes.now k links.now }
{
    if crate::first_look::passes(nodes, links, m, n, k) {
        return true;
    }
    one_by_one(nodes, links, m, n, k)
}

pub fn well_formed(control: &[u16], nodes: &[i64], links: &[u16]) -> bool
    requires { Lends control.now nodes.now links.now }
    ensures { result ≡ well_formed (tables control.now [] nodes.now links.now []) }
{
    let n = wide(field(control, N));
    let capacity = wide(field(control, CAPACITY));
    let k = wide(field(control, TRACE_COUNT));
    let m = wide(field(control, NODE_COUNT));
    if !counts_fit(m, k, capacity) {
        return false;
    }
    tree_fits(nodes, links, m, n, k)
}
