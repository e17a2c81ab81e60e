// A leaf read for all queries at once, marked and counted. Each query keeps its nearest trace so far in a record of two places, trace
// number and distance.
#![tactic(auto)]

ghost use Rattle.std.specs.Prelude.{◌≡◌, map, ◌+◌, ◌*◌, ◌≤◌, ◌<◌, length, get_or, set};
ghost use Rattle.segment.specs.Stored.{samples_of};
ghost use Rattle.dstree.specs.Batch.{most_queries, read_once};
ghost use Rattle.tables.specs.Layout.{kind_place};
ghost use Rattle.tables.specs.Tables.{node_count, record_of};
ghost use Rattle.tables.specs.View.{small_most, small_at, trace_in};
ghost use Rattle.tables.specs.Walk.{numbers_of, Stored as ListStored};
ghost use Rattle.reading.specs.Nearest.{near_of};
ghost use Rattle.search.specs.Lent.{stored_tables};
ghost use Rattle.batch_leaves.specs.LeavesRead.{Searchable, CountedOnce, BatchRoom, Turns, OneRead, AllRead};

use search::stored::Stored;
use segment::Word;
use tables::control::field;
use tables::numbers::wide;
use tables::places::{FIRST, N, TRACE_COUNT};

// The leaf whose list starts at `head`, for one query, whose record is record i. So many leaves were read before; without one the record
// does not count.
fn read_for(
    samples: &[Word],
    links: &[u16],
    n: usize,
    count: usize,
    head: usize,
    query: &[Word],
    bests: &mut [u64],
    i: usize,
    leaves: usize,
)
    requires { ListStored samples.now links.now n count head × (length query.now ≡ n) × (i < most_queries)
        × (2 * i + 2 ≤ length bests.old) }
    ensures { OneRead leaves i
        (map (near_of samples.now n (samples_of query.now)) (numbers_of links.now count head))
        bests.old bests.new }
{
    let listed = leaves.min(1);
    let at = 2 * i;
    let mut one: [u64; 2] = [0; 2];
    one[0] = bests[at];
    one[1] = bests[at + 1];
    reading::leaf::read_leaf(samples, links, n, count, head, query, &mut one, listed, 1);
    bests[at] = one[0];
    bests[at + 1] = one[1];
}

// .. for all queries of the run, with one more in the mark of the leaf, node j. Answers how many leaves were read, this one too. So a
// reading shows in the caller's marks, whatever becomes of its answer.
fn read_for_all(
    samples: &[Word],
    links: &[u16],
    n: usize,
    count: usize,
    head: usize,
    queries: &[Word],
    many: usize,
    bests: &mut [u64],
    marks: &mut [u8],
    j: usize,
    leaves: usize,
) -> usize
    requires stored { ListStored samples.now links.now n count head × (length queries.now ≡ n * many) × (many ≤ most_queries)
        × (2 * many ≤ length bests.old) × (leaves ≤ small_most) }
    requires mark { (j < length marks.old) × (get_or marks.old j 0 ≤ 1) }
    ensures all_read { AllRead leaves many
        (λ i. map (near_of samples.now n (trace_in queries.now n i)) (numbers_of links.now count head))
        bests.old bests.new }
    ensures marked { marks.new ≡ set marks.old j (get_or marks.old j 0 + 1) }
    ensures more { result ≡ leaves + 1 }
{
    for i in 0..many {
        let query = tables::runs::trace_at(queries, n, i);
        read_for(samples, links, n, count, head, query, bests, i, leaves);
    }
    marks[j] += 1;
    leaves + 1
}

// Leaf j, unless it was read before: then it has a mark. Answers how many leaves were read so far.
//
// Two wrong programs that the contract rules out: one that reads the leaf for the query alone that asks for it, since the others' bests
// then lack its traces; and one that reads a leaf with a mark again, since the mark is then above 1, be the answer kept or not.
pub fn read_once(
    stored: Stored,
    queries: &[Word],
    many: usize,
    j: usize,
    bests: &mut [u64],
    marks: &mut [u8],
    leaves: usize,
) -> usize
    requires searchable { Searchable (stored_tables stored) queries.now many
        × BatchRoom (stored_tables stored) many bests.old marks.old leaves }
    requires leaf { (j < node_count (stored_tables stored))
        × (small_at (record_of stored.nodes.now j) kind_place ≡ 0) }
    ensures turns { Turns (stored_tables stored.entry)
        queries.now many (λ read. read_once read j) bests.old marks.old leaves
        bests.new marks.new result }
    ensures counted { CountedOnce (stored_tables stored.entry) marks.new result }
{
    if marks[j] != 0 {
        return leaves;
    }
    let n = wide(field(stored.control, N));
    let count = wide(field(stored.control, TRACE_COUNT));
    let first = tables::records::node_small(stored.nodes, j, FIRST);
    read_for_all(
        stored.samples,
        stored.links,
        n,
        count,
        first,
        queries,
        many,
        bests,
        marks,
        j,
        leaves,
    )
}
