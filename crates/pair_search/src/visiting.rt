// Turn after turn, until no leaf of either library is within the nearest of both.
ghost use Rattle.segment.specs.Stored.{samples_of};
ghost use Rattle.search.specs.Lent.{stored_tables};
ghost use Rattle.pair_search.specs.Visiting.{MayVisit, BothVisited};

use crate::sides::Side;
use crate::starting::start;
use crate::stepping::step_both;
use heap::Heap;
use prefixes::Summed;
use search::stored::Stored;

// The two libraries when the search ends.
#[derive(Clone, Copy, PartialEq, Eq)]
pub struct Both {
    pub factory: Side,
    pub bench: Side,
}

// Search work has a place for each node. What stands in it before does not matter, nor what stands in the lists.
//
// Two wrong programs that the contract rules out: one that searches one library to its end and then the other, and one that stops when one
// of them has no leaf left.
pub fn visit_both(
    stored: Stored,
    work: &mut [u64],
    trail: &mut [u16],
    list: &mut [u64],
    bench_stored: Stored,
    bench_work: &mut [u64],
    bench_trail: &mut [u16],
    bench_list: &mut [u64],
    query: &Summed,
) -> Both
    requires { MayVisit (stored_tables stored) (samples_of query.now.trace.now)
        work.old trail.old list.old
        × MayVisit (stored_tables bench_stored) (samples_of query.now.trace.now)
        bench_work.old bench_trail.old bench_list.old }
    ensures { BothVisited (stored_tables stored.entry) (stored_tables bench_stored.entry)
        (samples_of query.now.trace.now) trail.old trail.new list.old list.new
        bench_trail.old bench_trail.new bench_list.old bench_list.new
        result.factory result.bench }
{
    let mut heap = Heap::new(work);
    let mut bench_heap = Heap::new(bench_work);
    let mut factory = start(stored.nodes, query, &mut heap);
    let mut bench = start(bench_stored.nodes, query, &mut bench_heap);
    while let Some((next, later)) = step_both(
        stored,
        &mut heap,
        trail,
        list,
        bench_stored,
        &mut bench_heap,
        bench_trail,
        bench_list,
        query,
        factory,
        bench,
    ) {
        factory = next;
        bench = later;
    }
    Both { factory, bench }
}
