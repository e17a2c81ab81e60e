// The sides that a test parts a leaf's traces into, as marks.
ghost use Rattle.std.specs.Prelude.{◌≡◌, [], ℕ, length, get_or};
ghost use Rattle.dstree.specs.Node.{sends_left};
ghost use Rattle.dstree.specs.Measures.{most_traces};
ghost use Rattle.tables.specs.View.{trace_in};
ghost use Rattle.tables.specs.Walk.{stored_in, numbers_of};
ghost use Rattle.tables.specs.Runs.{RunOfTrace, Inside};
ghost use Rattle.tables.specs.Runs.{test_by};
ghost use Rattle.leaf_figures.specs.Sides.{IsStored};
ghost use Rattle.candidate.specs.Marking.{side_mark, marks_by};

use leaf_figures::stored::StoredLeaf;
use leaf_figures::table::Run;
use segment::Word;
use tables::runs::{goes_left, trace_at};
use tables::walk::behind;

// The marks are numbers: `side_figures` and `list_side`, which the pages name, answer for marks of any number.
pub const LEFT: u8 = 1;

pub const RIGHT: u8 = 2;

// The mark of trace t by the side that it goes to.
pub fn side_of(
    samples: &[Word],
    n: usize,
    t: usize,
    on: Run,
    by_scatter: bool,
    threshold: i64,
) -> u8
    requires { RunOfTrace samples.now n t on.first on.last }
    ensures { result ≡ side_mark (sends_left (test_by on.first on.last by_scatter threshold) (trace_in samples.now n t)) }
{
    let trace = trace_at(samples, n, t);
    if goes_left(trace, on.first, on.last, by_scatter, threshold) {
        LEFT
    } else {
        RIGHT
    }
}

// The leaf's traces marked by their sides. Marks of other traces stay.
pub fn mark_sides(
    leaf: StoredLeaf,
    on: Run,
    by_scatter: bool,
    threshold: i64,
    marks: &mut [u8; 4096],
)
    requires { IsStored leaf × Inside leaf.n on.first on.last × (length marks.old ≡ most_traces) }
    ensures marks_after { marks.new ≡ marks_by (λ (t : ℕ). sends_left (test_by on.first on.last by_scatter threshold)
        (get_or (stored_in leaf.entry.samples.now leaf.entry.n leaf.entry.k) t []))
        marks.old (numbers_of leaf.entry.links.now leaf.entry.k leaf.entry.head) }
    ensures size { length marks.new ≡ most_traces }
{
    let mut t = leaf.head;
    while t < leaf.k {
        marks[t] = side_of(leaf.samples, leaf.n, t, on, by_scatter, threshold);
        t = behind(leaf.links, leaf.k, t);
    }
}
