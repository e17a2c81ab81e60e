// The leaves that one query of a batch asks for.
ghost use Rattle.std.specs.Prelude.{◌≡◌, ◌<◌, ◌≤◌, ◌*◌, ◌+◌, length, ltb, if◌then◌else◌};
ghost use Rattle.segment.specs.Stored.{samples_of};
ghost use Rattle.dstree.specs.Batch.{most_queries, read_for};
ghost use Rattle.tables.specs.Tables.{node_count};
ghost use Rattle.tables.specs.View.{tree_in, traces_in};
ghost use Rattle.reading.specs.Listed.{record_at};
ghost use Rattle.search.specs.Lent.{stored_tables};
ghost use Rattle.batch_leaves.specs.LeavesRead.{Searchable, query_at, CountedOnce, BatchRoom, Turns};

use heap::Heap;
use leaf_order::leaves::{begin, next_leaf};
use prefixes::Summed;
use search::stored::Stored;
use segment::Word;

// The distance of query i's nearest trace so far, once a leaf was read.
fn distance_at(bests: &[u64], i: usize, leaves: usize) -> Option<u64>
    requires { (i < most_queries) × (2 * i + 2 ≤ length bests.now) }
    ensures { result ≡ (if ltb 0 leaves then Some (record_at bests.now i).distance else None) }
{
    if leaves == 0 {
        return None;
    }
    Some(bests[2 * i + 1])
}

// Query i asks for leaves in its own order, by bound and then by number, until the next bound is above its nearest so far. What is read
// for one is read for all. Answers how many leaves were read so far.
//
// Two wrong programs that the contract rules out: one that stops at a leaf that was read before, and one that stops at a bound equal to
// the distance.
pub fn visit(
    stored: Stored,
    queries: &[Word],
    many: usize,
    i: usize,
    query: &Summed,
    work: &mut [u64],
    bests: &mut [u64],
    marks: &mut [u8],
    leaves: usize,
) -> usize
    requires searchable { Searchable (stored_tables stored) queries.now many
        × BatchRoom (stored_tables stored) many bests.old marks.old leaves }
    requires query { (i < many)
        × (samples_of query.now.trace.now ≡ query_at (stored_tables stored) queries.now i)
        × (length work.old ≡ node_count (stored_tables stored)) }
    ensures turns { Turns (stored_tables stored.entry) queries.now many
        (λ read. read_for (traces_in (stored_tables stored.entry)) (tree_in (stored_tables stored.entry)) read
        (query_at (stored_tables stored.entry) queries.now i))
        bests.old marks.old leaves bests.new marks.new result }
    ensures counted { CountedOnce (stored_tables stored.entry) marks.new result }
{
    let mut heap = Heap::new(work);
    begin(stored.nodes, query, &mut heap);
    let mut read: usize = leaves;
    while let Some(leaf) = next_leaf(stored.nodes, query, &mut heap, distance_at(bests, i, read)) {
        let j = leaf.number;
        read = batch_leaves::read_once(stored, queries, many, j, bests, marks, read);
    }
    read
}
