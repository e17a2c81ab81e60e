// A node's own bound for a query, from the node's record and the query's prefix sums.
ghost use Rattle.std.specs.Prelude.{◌≡◌, ◌≤◌, length};
ghost use Rattle.segment.specs.Limits.{bound_limit};
ghost use Rattle.segment.specs.Stored.{samples_of};
ghost use Rattle.dstree.specs.Measures.{sample_limit, most_samples};
ghost use Rattle.dstree.specs.Matching.{bound_on};
ghost use Rattle.query.specs.Bounded.{Bounded, bound_by};

use crate::terms::{Term, terms_total};
use prefixes::Summed;
use tables::places::{GREATEST_SCATTER, GREATEST_SUM, HEAD, LEAST_SCATTER, LEAST_SUM, SEGMENT};
use tables::records::{scatter, value_at};

// The terms of a node's own bound.
struct Bound;

impl Term for Bound {
    ghost term = { bound_on };

    fn of_segment(record: &[i64], query: &Summed, i: usize, first: usize, last: usize) -> u64 {
        let f = query.figures_on(first, last);
        let w = (last - first + 1) as u64;
        let at = HEAD + i * SEGMENT;
        let least_sum = value_at(record, at + LEAST_SUM);
        let greatest_sum = value_at(record, at + GREATEST_SUM);
        let least = scatter(value_at(record, at + LEAST_SCATTER));
        let greatest = scatter(value_at(record, at + GREATEST_SCATTER));
        segment_bound::terms::segment_bound(
            w,
            f.sum,
            f.scatter,
            least_sum,
            greatest_sum,
            least,
            greatest,
        )
    }
}

// A node's own bound: the terms of its segments, totalled. Its size is told so that a key that holds it is known to fit 64 bits.
pub fn own_bound(record: &[i64], query: &Summed) -> u64
    requires { Bounded «record».now (length query.now.trace.now) }
    ensures value { result ≡ bound_by (samples_of query.now.trace.now) «record».now }
    ensures size { result ≤ bound_limit sample_limit most_samples }
{
    terms_total::<Bound>(record, query)
}
