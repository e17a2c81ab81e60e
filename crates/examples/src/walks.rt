// The walk along a leaf by a candidate's test, document 02's §3: whether both sides are seen, and how many traces it takes.

ghost use Rattle.std.specs.Prelude.{◌≡◌, false, [], ◌∷◌, pos};
ghost use Rattle.tables.specs.Walk.{stored_in, numbers_of};
ghost use Rattle.tables.specs.Runs.{test_by};
ghost use Rattle.leaf_figures.specs.Sides.{IsStored};
ghost use Rattle.candidate.specs.Parting.{look_of};
ghost use Rattle.examples.specs.Steps.{nine_traces, twin_traces};

use candidate::parting::{Look, look_along};
use candidate::siding::Trial;
use leaf_figures::listed::Listed;
use leaf_figures::lists::list_leaf;
use leaf_figures::rows::Rows;
use leaf_figures::stored::StoredLeaf;
use leaf_figures::table::Run;

// The whole run of n samples, by its sum or by its scatter. No figures are kept: they are taken from the samples.
pub fn walk_of(leaf: StoredLeaf, by_scatter: bool, threshold: i64) -> Look
    requires { IsStored leaf }
    ensures { result ≡ look_of (stored_in leaf.entry.samples.now leaf.entry.n leaf.entry.k) (test_by 1 leaf.entry.n by_scatter threshold)
        (numbers_of leaf.entry.links.now leaf.entry.k leaf.entry.head) }
{
    let mut list = [0u16; 4096];
    let count = list_leaf(leaf.links, leaf.k, leaf.head, &mut list);
    let traces = Listed {
        samples: leaf.samples,
        n: leaf.n,
        k: leaf.k,
        list: &list[..count],
    };
    let rows = Rows {
        traces,
        place: &[],
        columns: &[],
    };
    let c = Trial {
        on: Run {
            first: 1,
            last: leaf.n,
        },
        by_scatter,
        cut: None,
        column: None,
    };
    look_along(rows, c, threshold)
}

// 0, 1 and 9 in one leaf, n = 1. A word is 4,096 times its sample.
pub fn nine(by_scatter: bool, threshold: i64) -> Look
    ensures { result ≡ look_of nine_traces (test_by 1 1 by_scatter threshold) (0 ∷ 1 ∷ 2 ∷ []) }
{
    let leaf = StoredLeaf {
        samples: &[0, 4096, 36864],
        links: &[1u16, 2, 0],
        n: 1,
        k: 3,
        head: 0,
    };
    walk_of(leaf, by_scatter, threshold)
}

// "(1,2,1,2) and (2,1,2,1): one leaf of two", by sum, T = 12.
pub fn twins() -> Look
    ensures { result ≡ look_of twin_traces (test_by 1 4 false (pos 12)) (0 ∷ 1 ∷ []) }
{
    let leaf = StoredLeaf {
        samples: &[4096, 8192, 4096, 8192, 8192, 4096, 8192, 4096],
        links: &[1u16, 0],
        n: 4,
        k: 2,
        head: 0,
    };
    walk_of(leaf, false, 12)
}
