// The distances of a leaf's traces, each as far as the k-th distance so far.
ghost use Rattle.std.specs.Prelude.{◌≡◌, ◌+◌, ◌*◌, ◌≤◌, length};
ghost use mathlib.Core.List.{map, foldl};
ghost use Rattle.segment.specs.Stored.{samples_of};
ghost use Rattle.dstree.specs.KNearest.{list_with};
ghost use Rattle.dstree.specs.Measures.{most_samples};
ghost use Rattle.tables.specs.Walk.{numbers_of, Stored};
ghost use Rattle.reading.specs.Nearest.{near_of};
ghost use Rattle.reading.specs.Listed.{nears_in, ListRoom, ListBegins};

use crate::list::{limit_of, put_in_list};
use segment::Word;
use segment::within::Distance;

// Trace t goes to its place, and those listed are answered. A trace beyond the limit is left as soon as that shows. A trace just as far as
// the k-th has to come back, since its number may be lower: a limit that is one less does not meet this.
fn take_trace(
    list: &mut [u64],
    listed: usize,
    k: usize,
    samples: &[Word],
    n: usize,
    t: usize,
    query: &[Word],
) -> usize
    requires { (n ≤ most_samples) × (t * n + n ≤ length samples.now) × (length query.now ≡ n) × ListRoom k listed list.old }
    ensures { ListBegins k result
        (list_with k (nears_in listed list.old) (near_of samples.now n (samples_of query.now) t))
        list.old list.new }
{
    let limit = limit_of(list, listed, k);
    let trace = tables::runs::trace_at(samples, n, t);
    match segment::within::distance_within(query, trace, limit) {
        Distance::Exact(distance) => put_in_list(list, listed, k, t as u64, distance),
        Distance::Beyond(_) => k,
    }
}

// What a leaf's reading leaves: how many traces are listed, and how many were read.
#[derive(Clone, Copy, PartialEq, Eq)]
pub struct LeafRead {
    pub listed: usize,
    pub traces: usize,
}

// The leaf is the list of traces that starts at `head`, along links, so that no index is counted. A walk that leaves its last trace out,
// or that stops at a near one, does not meet this.
pub fn read_leaf(
    samples: &[Word],
    links: &[u16],
    n: usize,
    count: usize,
    head: usize,
    query: &[Word],
    list: &mut [u64],
    listed: usize,
    k: usize,
) -> LeafRead
    requires { Stored samples.now links.now n count head × (length query.now ≡ n) × ListRoom k listed list.old }
    ensures list { ListBegins k result.listed
        (foldl (list_with k) (nears_in listed list.old)
        (map (near_of samples.now n (samples_of query.now)) (numbers_of links.now count head)))
        list.old list.new }
    ensures traces { result.traces ≡ length (numbers_of links.now count head) }
    ensures size { result.traces ≤ count }
{
    let mut m = listed;
    let mut traces: usize = 0;
    let mut t = head;
    while t < count {
        m = take_trace(list, m, k, samples, n, t, query);
        traces += 1;
        t = tables::walk::behind(links, count, t);
    }
    LeafRead { listed: m, traces }
}
