// The figures of the traces below a node on a run of samples: from the samples, or from the record of a child that was found exact.

ghost use Rattle.std.specs.Prelude.{IfSome, ◌≡◌, ℕ, ◌+◌, ◌*◌, ◌≤◌, ◌<◌, length, T};
ghost use Rattle.integer.specs.Lists.{In};
ghost use Rattle.dstree.specs.Figures.{run};
ghost use Rattle.dstree.specs.Adding.{segment_of};
ghost use Rattle.dstree.specs.Measures.{most_samples, most_traces};
ghost use Rattle.dstree.specs.Node.{most_segments};
ghost use Rattle.tables.specs.Layout.{record_places, segments_place};
ghost use Rattle.tables.specs.View.{small_at, segment_in};
ghost use Rattle.tables.specs.Runs.{Inside};
ghost use Rattle.leaf_figures.specs.Rows.{traces_at};
ghost use Rattle.leaf_figures.specs.Sides.{segment_by};
ghost use Rattle.figures_below.specs.Compared.{joined_figures, first_on, traces_under, exact_in, ReadyAt, AboveExact};

use leaf_figures::sides::{NO_TRACE, SideRange, widened};
use segment::Word;
use tables::kinds::is_leaf;
use tables::places::{
    FIRST, GREATEST_SCATTER, GREATEST_SUM, HEAD, LEAST_SCATTER, LEAST_SUM, RIGHT, SEGMENT, SEGMENTS,
};
use tables::records::{node_small, record_at, scatter, small_at, value_at};
use tables::runs::{figures_on, trace_at};

// Of the traces whose numbers are listed.
fn listed_figures(samples: &[Word], n: usize, list: &[u16], first: usize, last: usize) -> SideRange
    requires { (n ≤ most_samples) × Inside n first last × (length list.now ≤ most_traces)
        × ((t : ℕ) → In t list.now → t * n + n ≤ length samples.now) }
    ensures { segment_by last result ≡ segment_of (traces_at samples.now n list.now) (run first last) }
{
    let mut f: Option<SideRange> = None;
    for t in list {
        let own = figures_on(trace_at(samples, n, usize::from(*t)), first, last);
        f = Some(widened(f, own.sum, own.scatter));
    }
    f.unwrap_or(NO_TRACE)
}

// Of the traces below node j, from their samples.
fn figures_below(
    samples: &[Word],
    nodes: &[i64],
    n: usize,
    sizes: &[u16; 8192],
    starts: &[u16; 8192],
    order: &[u16],
    j: usize,
    first: usize,
    last: usize,
) -> SideRange
    requires { ReadyAt samples.now nodes.now n sizes.now starts.now order.now j × Inside n first last }
    ensures { segment_by last result
        ≡ segment_of (traces_under samples.now n sizes.now starts.now order.now j)
        (run first last) }
{
    let from = usize::from(starts[j]);
    let to = from + usize::from(sizes[j]);
    listed_figures(samples, n, &order[from..to], first, last)
}

// Two lists of traces together.
fn joined(a: SideRange, b: SideRange) -> SideRange
    ensures { result ≡ joined_figures a b }
{
    SideRange {
        least_sum: a.least_sum.min(b.least_sum),
        greatest_sum: b.greatest_sum.max(a.greatest_sum),
        least_scatter: a.least_scatter.min(b.least_scatter),
        greatest_scatter: a.greatest_scatter.max(b.greatest_scatter),
    }
}

// What a record has for segment i.
pub fn recorded(record: &[i64], i: usize) -> SideRange
    requires { (length «record».now ≡ record_places) × (i < most_segments) }
    ensures { segment_by (segment_in «record».now i).end result ≡ segment_in «record».now i }
{
    let at = HEAD + i * SEGMENT;
    SideRange {
        least_sum: value_at(record, at + LEAST_SUM),
        greatest_sum: value_at(record, at + GREATEST_SUM),
        least_scatter: scatter(value_at(record, at + LEAST_SCATTER)),
        greatest_scatter: scatter(value_at(record, at + GREATEST_SCATTER)),
    }
}

// The segment of a record that is the samples `first` to `last`, if it has one.
fn segment_on(record: &[i64], first: usize, last: usize) -> Option<usize>
    requires { (length «record».now ≡ record_places) × (small_at «record».now segments_place ≤ most_segments) }
    ensures { IfSome result (λ i. (i < small_at «record».now segments_place) × (first_on «record».now i ≡ first)
        × ((segment_in «record».now i).end ≡ last)) }
{
    let count = small_at(record, SEGMENTS);
    let mut from: usize = 1;
    for i in 0..count {
        let end = small_at(record, HEAD + i * SEGMENT);
        if from == first && end == last {
            return Some(i);
        }
        from = end + 1;
    }
    None
}

// Of the traces below node c, whose record has exactly their figures: from that record where it has the segment, else from the samples.
fn child_figures(
    samples: &[Word],
    nodes: &[i64],
    n: usize,
    sizes: &[u16; 8192],
    starts: &[u16; 8192],
    order: &[u16],
    c: usize,
    first: usize,
    last: usize,
) -> SideRange
    requires { ReadyAt samples.now nodes.now n sizes.now starts.now order.now c × Inside n first last
        × T (exact_in samples.now nodes.now n sizes.now starts.now order.now c) }
    ensures { segment_by last result
        ≡ segment_of (traces_under samples.now n sizes.now starts.now order.now c)
        (run first last) }
{
    let record = record_at(nodes, c);
    match segment_on(record, first, last) {
        Some(i) => recorded(record, i),
        None => figures_below(samples, nodes, n, sizes, starts, order, c, first, last),
    }
}

// Of the traces below node j: a leaf's from their samples, an inner node's by its children.
pub fn node_figures(
    samples: &[Word],
    nodes: &[i64],
    n: usize,
    sizes: &[u16; 8192],
    starts: &[u16; 8192],
    order: &[u16],
    j: usize,
    first: usize,
    last: usize,
) -> SideRange
    requires { AboveExact samples.now nodes.now n sizes.now starts.now order.now j × Inside n first last }
    ensures { segment_by last result
        ≡ segment_of (traces_under samples.now n sizes.now starts.now order.now j)
        (run first last) }
{
    if is_leaf(nodes, j) {
        return figures_below(samples, nodes, n, sizes, starts, order, j, first, last);
    }
    let left = node_small(nodes, j, FIRST);
    let right = node_small(nodes, j, RIGHT);
    let a = child_figures(samples, nodes, n, sizes, starts, order, left, first, last);
    let b = child_figures(samples, nodes, n, sizes, starts, order, right, first, last);
    joined(a, b)
}
