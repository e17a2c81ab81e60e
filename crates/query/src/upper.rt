// A node's own upper figure for a query, from the node's record and the query's prefix sums.
ghost use Rattle.std.specs.Prelude.{◌≡◌, length};
ghost use Rattle.segment.specs.Stored.{samples_of};
ghost use Rattle.dstree.specs.Bands.{upper_on};
ghost use Rattle.query.specs.Bounded.{Bounded, upper_by};

use crate::terms::{Term, terms_total};
use prefixes::Summed;
use tables::places::{GREATEST_SCATTER, GREATEST_SUM, HEAD, LEAST_SUM, SEGMENT};
use tables::records::{scatter, value_at};

// The terms of a node's own upper figure.
struct Upper;

impl Term for Upper {
    ghost term = { upper_on };

    fn of_segment(record: &[i64], query: &Summed, i: usize, first: usize, last: usize) -> u64 {
        let f = query.figures_on(first, last);
        let w = (last - first + 1) as u64;
        let at = HEAD + i * SEGMENT;
        let least_sum = value_at(record, at + LEAST_SUM);
        let greatest_sum = value_at(record, at + GREATEST_SUM);
        let greatest = scatter(value_at(record, at + GREATEST_SCATTER));
        segment_bound::terms::segment_upper(w, f.sum, f.scatter, least_sum, greatest_sum, greatest)
    }
}

// A node's own upper figure: the terms of its segments, totalled. The greatest of them does not meet this.
pub fn own_upper(record: &[i64], query: &Summed) -> u64
    requires { Bounded «record».now (length query.now.trace.now) }
    ensures { result ≡ upper_by (samples_of query.now.trace.now) «record».now }
{
    terms_total::<Upper>(record, query)
}
