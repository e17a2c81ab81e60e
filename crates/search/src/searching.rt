// The whole search: the query's sums, the loop, and search work left zero. The match is the one nearest, with a limit on leaves or without.
ghost use Rattle.std.specs.Prelude.{◌*◌, ◌≤◌, length};
ghost use Rattle.segment.specs.Stored.{samples_of};
ghost use Rattle.dstree.specs.Measures.{work_needed};
ghost use Rattle.tables.specs.Tables.{measures_of};
ghost use Rattle.search.specs.Lent.{stored_tables};
ghost use Rattle.search.specs.Searched.{Ready, LimitSearched, ListSearched, Searched, MatchedWithin};

use crate::stored::Stored;
use crate::visiting::{ALL_LEAVES, Seen};
use prefixes::Summed;
use segment::Word;
use tables::control::field;
use tables::places::{CAPACITY, NODE_COUNT};

// Lists the k nearest of the traces in the first leaves, at most so many: two places a record, trace number and distance, from the list's
// first place on; the places behind them stay. The needed places of search work are zero when it ends, whatever they held.
fn search_first(
    stored: Stored,
    query: &[Word],
    work: &mut [u64],
    trail: &mut [u16],
    list: &mut [u64],
    k: usize,
    most: u64,
) -> Seen
    requires ready { Ready (stored_tables stored) (samples_of query.now) (length trail.old)
        × (work_needed (measures_of (stored_tables stored)) ≤ length work.old) }
    requires list { (1 ≤ k) × (2 * k ≤ length list.old) }
    ensures { LimitSearched k most (stored_tables stored.entry)
        (samples_of query.now) work.old work.new trail.old trail.new list.old
        list.new result.listed result.out result.traces result.unread }
{
    let mut sums = [0; 257];
    let mut squares = [0; 257];
    let summed = Summed::of(query, &mut sums, &mut squares);
    let count = tables::numbers::wide(field(stored.control, NODE_COUNT));
    let seen = crate::visiting::visit_first(
        stored,
        &summed,
        &mut work[..count],
        trail,
        list,
        k,
        most,
    );
    let capacity = tables::numbers::wider(field(stored.control, CAPACITY));
    let needed = tables::control::records_needed(capacity);
    tables::loops::fill_first(work, needed, 0);
    seen
}

// Lists the k nearest of all stored traces, as above.
pub fn search_list(
    stored: Stored,
    query: &[Word],
    work: &mut [u64],
    trail: &mut [u16],
    list: &mut [u64],
    k: usize,
) -> Seen
    requires ready { Ready (stored_tables stored) (samples_of query.now) (length trail.old)
        × (work_needed (measures_of (stored_tables stored)) ≤ length work.old) }
    requires list { (1 ≤ k) × (2 * k ≤ length list.old) }
    ensures { ListSearched k (stored_tables stored.entry)
        (samples_of query.now) work.old work.new trail.old trail.new list.old
        list.new result.listed result.out result.traces }
{
    search_first(stored, query, work, trail, list, k, ALL_LEAVES)
}

// The nearest trace and its distance, the leaves read, which the trail begins with, and the traces read.
#[derive(Clone, Copy, PartialEq, Eq)]
pub struct Matched {
    pub trace: u64,
    pub distance: u64,
    pub out: usize,
    pub traces: usize,
}

// The match: one nearest, in a list of its own. Where nothing is found the list keeps its zeros, as the definition has it; no test is
// needed.
pub fn search_all(stored: Stored, query: &[Word], work: &mut [u64], trail: &mut [u16]) -> Matched
    requires { Ready (stored_tables stored) (samples_of query.now) (length trail.old)
        × (work_needed (measures_of (stored_tables stored)) ≤ length work.old) }
    ensures { Searched (stored_tables stored.entry)
        (samples_of query.now) work.old work.new trail.old trail.new result.trace
        result.distance result.out result.traces }
{
    let mut list: [u64; 2] = [0; 2];
    let seen = search_list(stored, query, work, trail, &mut list, 1);
    Matched {
        trace: list[0],
        distance: list[1],
        out: seen.out,
        traces: seen.traces,
    }
}

// What a match with a limit on leaves has found: as a match, and the bound of the leaf that would be read next, if one is left unread.
#[derive(Clone, Copy, PartialEq, Eq)]
pub struct BestSoFar {
    pub trace: u64,
    pub distance: u64,
    pub out: usize,
    pub traces: usize,
    pub unread: Option<u64>,
}

// The match with a limit on leaves, of whatever size.
pub fn search_within(
    stored: Stored,
    query: &[Word],
    work: &mut [u64],
    trail: &mut [u16],
    most: u64,
) -> BestSoFar
    requires { Ready (stored_tables stored) (samples_of query.now) (length trail.old)
        × (work_needed (measures_of (stored_tables stored)) ≤ length work.old) }
    ensures { MatchedWithin most (stored_tables stored.entry)
        (samples_of query.now) work.old work.new trail.old trail.new result.trace
        result.distance result.out result.traces result.unread }
{
    let mut list: [u64; 2] = [0; 2];
    let seen = search_first(stored, query, work, trail, &mut list, 1, most);
    BestSoFar {
        trace: list[0],
        distance: list[1],
        out: seen.out,
        traces: seen.traces,
        unread: seen.unread,
    }
}
