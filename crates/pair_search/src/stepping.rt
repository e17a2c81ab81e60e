// One turn of a search over both libraries.
ghost use Rattle.segment.specs.Stored.{samples_of};
ghost use Rattle.heap.specs.Lent.{SameRoom};
ghost use Rattle.search.specs.Lent.{stored_tables};
ghost use Rattle.pair_search.specs.Stepping.{slices, MayStep, Stepping};

use crate::advancing::advance;
use crate::limits::{limit_in, nearer_of};
use crate::sides::Side;
use crate::turns::{Whose, turn};
use heap::Heap;
use prefixes::Summed;
use search::stored::Stored;

// Reads the leaf ahead that has the lower bound, of equal ones the factory's, if it is within the nearest of both. Answers the two
// libraries after the turn, the factory's and the bench's, if there was one.
//
// Two wrong programs that the contract rules out: one that goes on while a bound is within one library's nearest alone, and one that
// writes the other library's trail.
pub fn step_both(
    stored: Stored,
    heap: &mut Heap,
    trail: &mut [u16],
    list: &mut [u64],
    bench_stored: Stored,
    bench_heap: &mut Heap,
    bench_trail: &mut [u16],
    bench_list: &mut [u64],
    query: &Summed,
    factory: Side,
    bench: Side,
) -> Option<(Side, Side)>
    requires { MayStep (stored_tables stored) (samples_of query.now.trace.now)
        (slices heap.old trail.old list.old) factory
        × MayStep (stored_tables bench_stored) (samples_of query.now.trace.now)
        (slices bench_heap.old bench_trail.old bench_list.old) bench }
    ensures room { SameRoom heap.old heap.new }
    ensures bench_room { SameRoom bench_heap.old bench_heap.new }
    ensures stepping { Stepping (stored_tables stored.entry) (stored_tables bench_stored.entry)
        (samples_of query.now.trace.now) (slices heap.old trail.old list.old)
        (slices heap.new trail.new list.new)
        (slices bench_heap.old bench_trail.old bench_list.old)
        (slices bench_heap.new bench_trail.new bench_list.new)
        factory bench result }
{
    let own = limit_in(list, factory.listed);
    let other = limit_in(bench_list, bench.listed);
    let within = nearer_of(own, other);
    match turn(factory, bench, within)? {
        Whose::Factory => {
            let next = advance(stored, query, heap, trail, list, factory, other);
            Some((next, bench))
        }
        Whose::Bench => {
            let next = advance(
                bench_stored,
                query,
                bench_heap,
                bench_trail,
                bench_list,
                bench,
                own,
            );
            Some((factory, next))
        }
    }
}
