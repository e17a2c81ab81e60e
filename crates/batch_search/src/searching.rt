// Query after query, with the sums that each needs, and search work left zero.
ghost use Rattle.std.specs.Prelude.{◌≡◌, [], ◌<◌, ◌≤◌, length};
ghost use Rattle.segment.specs.Stored.{samples_of};
ghost use Rattle.dstree.specs.Measures.{work_needed};
ghost use Rattle.dstree.specs.Matching.{leaves};
ghost use Rattle.dstree.specs.Batch.{read_for, batch_read};
ghost use Rattle.tables.specs.Tables.{measures_of, node_count, filled};
ghost use Rattle.tables.specs.View.{tree_in, traces_in};
ghost use Rattle.search.specs.Lent.{stored_tables};
ghost use Rattle.batch_leaves.specs.LeavesRead.{Searchable, query_at, queries_of, CountedOnce, BatchRoom, BestsAndMarks, Turns};
ghost use Rattle.batch_search.specs.Batched.{BatchSearched};

use prefixes::Summed;
use search::stored::Stored;
use segment::Word;
use tables::control::field;
use tables::numbers::wide;
use tables::places::{CAPACITY, N, NODE_COUNT};

// Query i: its sums, then its leaves. Answers how many leaves were read so far.
fn search_query(
    stored: Stored,
    queries: &[Word],
    many: usize,
    i: usize,
    work: &mut [u64],
    bests: &mut [u64],
    marks: &mut [u8],
    leaves: usize,
) -> usize
    requires searchable { Searchable (stored_tables stored) queries.now many
        × BatchRoom (stored_tables stored) many bests.old marks.old leaves }
    requires query { (i < many) × (length work.old ≡ node_count (stored_tables stored)) }
    ensures turns { Turns (stored_tables stored.entry) queries.now many
        (λ read. read_for (traces_in (stored_tables stored.entry)) (tree_in (stored_tables stored.entry)) read
        (query_at (stored_tables stored.entry) queries.now i))
        bests.old marks.old leaves bests.new marks.new result }
    ensures counted { CountedOnce (stored_tables stored.entry) marks.new result }
{
    let n = wide(field(stored.control, N));
    let mut sums = [0; 257];
    let mut squares = [0; 257];
    let summed = Summed::of(
        tables::runs::trace_at(queries, n, i),
        &mut sums,
        &mut squares,
    );
    crate::visiting::visit(
        stored, queries, many, i, &summed, work, bests, marks, leaves,
    )
}

// All queries, one after another. Search work has a place for each node. Answers how many leaves were read.
//
// Two wrong programs that the contract rules out: one that leaves out the last query, and one that forgets between two queries what was
// read.
fn search_queries(
    stored: Stored,
    queries: &[Word],
    many: usize,
    work: &mut [u64],
    bests: &mut [u64],
    marks: &mut [u8],
) -> usize
    requires { Searchable (stored_tables stored) queries.now many
        × BatchRoom (stored_tables stored) many bests.old marks.old 0
        × (length work.old ≡ node_count (stored_tables stored)) }
    ensures bests_and_marks { BestsAndMarks (stored_tables stored.entry) queries.now many [] bests.old marks.old 0
        → BestsAndMarks (stored_tables stored.entry) queries.now many
        (batch_read (traces_in (stored_tables stored.entry)) (tree_in (stored_tables stored.entry))
        (queries_of (stored_tables stored.entry) queries.now
        many)) bests.new marks.new result }
    ensures counted { CountedOnce (stored_tables stored.entry) marks.new result }
{
    let mut leaves: usize = 0;
    for i in 0..many {
        leaves = search_query(stored, queries, many, i, work, bests, marks, leaves);
    }
    leaves
}

// .. with the needed places of search work zero when it ends, whatever they held.
fn search_marks(
    stored: Stored,
    queries: &[Word],
    many: usize,
    work: &mut [u64],
    bests: &mut [u64],
    marks: &mut [u8],
) -> usize
    requires { Searchable (stored_tables stored) queries.now many
        × BatchRoom (stored_tables stored) many bests.old marks.old 0
        × (work_needed (measures_of (stored_tables stored)) ≤ length work.old) }
    ensures bests_and_marks { BestsAndMarks (stored_tables stored.entry) queries.now many [] bests.old marks.old 0
        → BestsAndMarks (stored_tables stored.entry) queries.now many
        (batch_read (traces_in (stored_tables stored.entry)) (tree_in (stored_tables stored.entry))
        (queries_of (stored_tables stored.entry) queries.now
        many)) bests.new marks.new result }
    ensures counted { CountedOnce (stored_tables stored.entry) marks.new result }
    ensures zero { work.new ≡ filled
        (work_needed (measures_of (stored_tables stored.entry))) 0
        work.old }
{
    let count = wide(field(stored.control, NODE_COUNT));
    let leaves = search_queries(stored, queries, many, &mut work[..count], bests, marks);
    let capacity = tables::numbers::wider(field(stored.control, CAPACITY));
    let needed = tables::control::records_needed(capacity);
    tables::loops::fill_first(work, needed, 0);
    leaves
}

// How many leaves were read, which the trail begins with by rising number, and a record for each query, two places each: trace number
// and distance of its nearest trace.
#[derive(Clone, Copy, PartialEq, Eq)]
pub struct BatchRead {
    pub leaves: usize,
    pub bests: [u64; 32],
}

// The whole search for a batch. Search work is left zero.
//
// Two wrong programs that the contract rules out: one that counts a leaf anew for each query that asks for it, and one that lists the
// leaves in the order in which they were read.
pub fn search_batch(
    stored: Stored,
    queries: &[Word],
    many: usize,
    work: &mut [u64],
    trail: &mut [u16],
) -> BatchRead
    requires { Searchable (stored_tables stored) queries.now many
        × (work_needed (measures_of (stored_tables stored)) ≤ length work.old)
        × (length (leaves (tree_in (stored_tables stored))) ≤ length trail.old) }
    ensures { BatchSearched (stored_tables stored.entry)
        (samples_of queries.now) many work.old work.new trail.old trail.new result.bests
        result.leaves }
{
    let mut bests: [u64; 32] = [0; 32];
    let mut marks: [u8; 8192] = [0; 8192];
    let leaves = search_marks(stored, queries, many, work, &mut bests, &mut marks);
    let count = wide(field(stored.control, NODE_COUNT));
    crate::marked::write_trail(&marks, count, trail);
    BatchRead { leaves, bests }
}
