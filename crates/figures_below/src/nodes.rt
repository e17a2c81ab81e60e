// Records compared with the figures of the traces below, node by node.

ghost use Rattle.std.specs.Prelude.{◌≡◌};
ghost use Rattle.integer.specs.Words.{every, counting};
ghost use Rattle.figures_below.specs.Compared.{ReadyToCompare};
ghost use Rattle.figures_below.specs.Compared.{exact_in, AboveExact};

use crate::figures::{node_figures, recorded};
use segment::Word;
use tables::places::{HEAD, SEGMENT, SEGMENTS};
use tables::records::{record_at, small_at};

// Node j, all nodes above it having been found exact.
fn node_exact(
    samples: &[Word],
    nodes: &[i64],
    n: usize,
    sizes: &[u16; 8192],
    starts: &[u16; 8192],
    order: &[u16],
    j: usize,
) -> bool
    requires { AboveExact samples.now nodes.now n sizes.now starts.now order.now j }
    ensures { result ≡ exact_in samples.now nodes.now n sizes.now starts.now
        order.now j }
{
    let record = record_at(nodes, j);
    let count = small_at(record, SEGMENTS);
    let mut first: usize = 1;
    for i in 0..count {
        let last = small_at(record, HEAD + i * SEGMENT);
        let figures = node_figures(samples, nodes, n, sizes, starts, order, j, first, last);
        if recorded(record, i) != figures {
            return false;
        }
        first = last + 1;
    }
    true
}

// Every one of m nodes, the last one first: children are numbered above their parent, so that they come before it.
pub fn all_exact(
    samples: &[Word],
    nodes: &[i64],
    n: usize,
    m: usize,
    sizes: &[u16; 8192],
    starts: &[u16; 8192],
    order: &[u16],
) -> bool
    requires { ReadyToCompare samples.now nodes.now n m sizes.now starts.now order.now }
    ensures { result ≡ every
        (exact_in samples.now nodes.now n sizes.now starts.now order.now)
        (counting m 0) }
{
    for j in (0..m).rev() {
        if !node_exact(samples, nodes, n, sizes, starts, order, j) {
            return false;
        }
    }
    true
}
