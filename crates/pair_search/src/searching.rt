// The whole search over two libraries: the query's sums once, the loop, and both works left zero.
ghost use Rattle.std.specs.Prelude.{◌≡◌, [], ◌≤◌, length, drop};
ghost use Rattle.segment.specs.Stored.{samples_of};
ghost use Rattle.dstree.specs.Measures.{work_needed, most_traces};
ghost use Rattle.tables.specs.Tables.{measures_of, node_count, filled};
ghost use Rattle.search.specs.Lent.{stored_tables};
ghost use Rattle.search.specs.Searched.{without_work};
ghost use Rattle.pair_search.specs.Visiting.{BothVisited};
ghost use Rattle.pair_search.specs.BothSearched.{SideReady, BothSearched};

use crate::turns::Whose;
use crate::visiting::{Both, visit_both};
use prefixes::Summed;
use search::stored::Stored;
use segment::Word;
use tables::control::field;
use tables::numbers::wide;
use tables::places::{CAPACITY, NODE_COUNT};

// The nearest in each library, in lists of one. Of each work only a place for each node is lent.
fn search_lists(
    stored: Stored,
    work: &mut [u64],
    trail: &mut [u16],
    list: &mut [u64],
    bench_stored: Stored,
    bench_work: &mut [u64],
    bench_trail: &mut [u16],
    bench_list: &mut [u64],
    query: &[Word],
) -> Both
    requires side_ready { SideReady (stored_tables stored) (samples_of query.now) (length trail.old)
        × (work_needed (measures_of (stored_tables stored)) ≤ length work.old)
        × (2 ≤ length list.old) }
    requires bench { SideReady (stored_tables bench_stored) (samples_of query.now) (length bench_trail.old)
        × (work_needed (measures_of (stored_tables bench_stored)) ≤ length bench_work.old)
        × (2 ≤ length bench_list.old) }
    ensures both_visited { BothVisited (stored_tables stored.entry) (stored_tables bench_stored.entry)
        (samples_of query.now) trail.old trail.new list.old list.new
        bench_trail.old bench_trail.new bench_list.old bench_list.new
        result.factory result.bench }
    ensures behind { drop (node_count (stored_tables stored.entry)) work.new
        ≡ drop (node_count (stored_tables stored.entry)) work.old }
    ensures bench_behind { drop (node_count (stored_tables bench_stored.entry)) bench_work.new
        ≡ drop (node_count (stored_tables bench_stored.entry)) bench_work.old }
{
    let mut sums = [0; 257];
    let mut squares = [0; 257];
    let summed = Summed::of(query, &mut sums, &mut squares);
    let count = wide(field(stored.control, NODE_COUNT));
    let bench_count = wide(field(bench_stored.control, NODE_COUNT));
    visit_both(
        stored,
        &mut work[..count],
        trail,
        list,
        bench_stored,
        &mut bench_work[..bench_count],
        bench_trail,
        bench_list,
        &summed,
    )
}

// The needed places of search work are zero then, whatever they held.
fn clear_work(control: &[u16], work: &mut [u64])
    requires { ((measures_of (without_work control.now [] [] [])).capacity ≤ most_traces)
        × (work_needed (measures_of (without_work control.now [] [] [])) ≤ length work.old) }
    ensures { work.new
        ≡ filled (work_needed (measures_of (without_work control.now [] [] []))) 0 work.old }
{
    let capacity = tables::numbers::wider(field(control, CAPACITY));
    let needed = tables::control::records_needed(capacity);
    tables::loops::fill_first(work, needed, 0);
}

// The library of the nearest trace, the trace's number and its distance; the leaves read of each library, which its trail begins with; and
// the traces read, over both.
#[derive(Clone, Copy, PartialEq, Eq)]
pub struct BothSeen {
    pub library: Whose,
    pub trace: u64,
    pub distance: u64,
    pub out: usize,
    pub bench_out: usize,
    pub traces: usize,
}

// The nearest of all in two libraries. Either may be empty; its search work is left zero too.
//
// Two wrong programs that the contract rules out: one that answers the bench's trace at an equal distance, and one that leaves the search
// work of an empty library as it was.
pub fn search_both(
    stored: Stored,
    bench_stored: Stored,
    query: &[Word],
    work: &mut [u64],
    trail: &mut [u16],
    bench_work: &mut [u64],
    bench_trail: &mut [u16],
) -> BothSeen
    requires side_ready { SideReady (stored_tables stored) (samples_of query.now) (length trail.old)
        × (work_needed (measures_of (stored_tables stored)) ≤ length work.old) }
    requires bench { SideReady (stored_tables bench_stored) (samples_of query.now) (length bench_trail.old)
        × (work_needed (measures_of (stored_tables bench_stored)) ≤ length bench_work.old) }
    ensures { BothSearched (stored_tables stored.entry) (stored_tables bench_stored.entry)
        (samples_of query.now) work.old work.new trail.old trail.new
        bench_work.old bench_work.new bench_trail.old bench_trail.new
        result.library result.trace result.distance result.out result.bench_out result.traces }
{
    let mut list: [u64; 2] = [0; 2];
    let mut bench_list: [u64; 2] = [0; 2];
    let both = search_lists(
        stored,
        work,
        trail,
        &mut list,
        bench_stored,
        bench_work,
        bench_trail,
        &mut bench_list,
        query,
    );
    clear_work(stored.control, work);
    clear_work(bench_stored.control, bench_work);
    let factory = both.factory;
    let bench = both.bench;
    let won = crate::winning::winner(&list, factory.listed, &bench_list, bench.listed);
    BothSeen {
        library: won.library,
        trace: won.trace,
        distance: won.distance,
        out: factory.out,
        bench_out: bench.out,
        traces: factory.traces + bench.traces,
    }
}
