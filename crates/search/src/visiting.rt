// Leaves are read by bound, then by number, until k traces are listed and the next bound is above the k-th distance, or so many are read.
ghost use Rattle.std.specs.Prelude.{◌≡◌, ◌*◌, ◌≤◌, length};
ghost use Rattle.segment.specs.Stored.{samples_of};
ghost use Rattle.tables.specs.Tables.{node_count};
ghost use Rattle.search.specs.Lent.{stored_tables};
ghost use Rattle.search.specs.Searched.{Ready, LimitVisited, Visited};

use crate::stored::Stored;
use heap::Heap;
use leaf_order::leaves::{begin, next_leaf};
use prefixes::Summed;
use reading::list::kth_distance;
use tables::control::field;
use tables::places::{FIRST, TRACE_COUNT};

// The traces listed, the leaves read, which the trail begins with, and the traces read. Unread: the bound of the leaf that would be read
// next, if one is left.
#[derive(Clone, Copy, PartialEq, Eq)]
pub struct Seen {
    pub listed: usize,
    pub out: usize,
    pub traces: usize,
    pub unread: Option<u64>,
}

// Search work has a place for each node. What stands in it before does not matter, nor what stands in the list.
//
// Whether a leaf is left is known without reading it: once so many leaves are read, the next one is handed out and its bound told.
//
// Two wrong programs that the contract rules out: one that stops at a bound equal to the k-th distance, and one that reads leaves by
// number alone.
pub fn visit_first(
    stored: Stored,
    query: &Summed,
    work: &mut [u64],
    trail: &mut [u16],
    list: &mut [u64],
    k: usize,
    most: u64,
) -> Seen
    requires ready { Ready (stored_tables stored) (samples_of query.now.trace.now) (length trail.old)
        × (length work.old ≡ node_count (stored_tables stored)) }
    requires list { (1 ≤ k) × (2 * k ≤ length list.old) }
    ensures { LimitVisited k most (stored_tables stored.entry)
        (samples_of query.now.trace.now) trail.old trail.new list.old list.new result.listed
        result.out result.traces result.unread }
{
    let n = query.trace.len();
    let count = tables::numbers::wide(field(stored.control, TRACE_COUNT));
    let mut heap = Heap::new(work);
    begin(stored.nodes, query, &mut heap);
    let mut out: usize = 0;
    let mut traces: usize = 0;
    let mut listed: usize = 0;
    while let Some(leaf) = next_leaf(
        stored.nodes,
        query,
        &mut heap,
        kth_distance(list, listed, k),
    ) {
        if most <= out as u64 {
            return Seen {
                listed,
                out,
                traces,
                unread: Some(leaf.bound),
            };
        }
        let j = leaf.number;
        let first = tables::records::node_small(stored.nodes, j, FIRST);
        let r = reading::leaf::read_leaf(
            stored.samples,
            stored.links,
            n,
            count,
            first,
            query.trace,
            list,
            listed,
            k,
        );
        listed = r.listed;
        traces += r.traces;
        trail[out] = j as u16;
        out += 1;
    }
    Seen {
        listed,
        out,
        traces,
        unread: None,
    }
}

// No tree has more leaves.
pub const ALL_LEAVES: u64 = 8192;

// The same with no limit on leaves: until k traces are listed and the next bound is above the k-th distance.
pub fn visit(
    stored: Stored,
    query: &Summed,
    work: &mut [u64],
    trail: &mut [u16],
    list: &mut [u64],
    k: usize,
) -> Seen
    requires ready { Ready (stored_tables stored) (samples_of query.now.trace.now) (length trail.old)
        × (length work.old ≡ node_count (stored_tables stored)) }
    requires list { (1 ≤ k) × (2 * k ≤ length list.old) }
    ensures { Visited k (stored_tables stored.entry)
        (samples_of query.now.trace.now) trail.old trail.new list.old list.new result.listed
        result.out result.traces }
{
    visit_first(stored, query, work, trail, list, k, ALL_LEAVES)
}
