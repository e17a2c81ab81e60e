// Every node but 0 is a child once.

ghost use Rattle.std.specs.Prelude.{◌≡◌};
ghost use Rattle.records_fit.specs.Fits.{AllFit, HeadFits};
ghost use Rattle.numbers_fit.specs.Marks.{MarkedOrTwice};
ghost use Rattle.numbers_fit.specs.Tests.{children_at, children_of_first, children_once};

use tables::kinds::is_leaf;
use tables::places::{FIRST, RIGHT};
use tables::records::node_small;

// Marks the children of node j, if it is an inner node.
pub fn mark_children(nodes: &[i64], j: usize, marks: &mut [u8; 8192]) -> bool
    requires { HeadFits j nodes.now }
    ensures { MarkedOrTwice marks.old marks.new (children_at nodes.now j) result }
{
    if is_leaf(nodes, j) {
        return true;
    }
    let left = node_small(nodes, j, FIRST);
    let right = node_small(nodes, j, RIGHT);
    if !crate::marks::mark(marks, left) {
        return false;
    }
    crate::marks::mark(marks, right)
}

// Marks the children of every node, and stops at one that was met before.
fn mark_all(nodes: &[i64], m: usize, marks: &mut [u8; 8192]) -> bool
    requires { AllFit m nodes.now }
    ensures { MarkedOrTwice marks.old marks.new (children_of_first nodes.now m) result }
{
    for j in 0..m {
        if !mark_children(nodes, j, marks) {
            return false;
        }
    }
    true
}

pub fn children_once(nodes: &[i64], m: usize) -> bool
    requires { AllFit m nodes.now }
    ensures { result ≡ children_once m nodes.now }
{
    let mut marks = [0u8; 8192];
    if !mark_all(nodes, m, &mut marks) {
        return false;
    }
    if m == 0 {
        return true;
    }
    crate::marks::all_marked(&marks, 1, m - 1)
}
