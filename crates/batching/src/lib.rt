// A batch of queries on lent tables: a nearest trace for each of them, and no leaf read twice. The records are given back in an array by
// value; the caller's list is known by its length alone.
#![tactic(auto)]

pub mod judging; // what a batch refuses

ghost use Rattle.std.specs.Prelude.{◌≡◌, List, [], ◌∷◌, ◌≤◌, length};
ghost use Rattle.segment.specs.Limits.{sample_most, SamplesWithin};
ghost use Rattle.dstree.specs.Measures.{work_needed};
ghost use Rattle.dstree.specs.Matching.{Near, leaves};
ghost use Rattle.dstree.specs.KNearest.{list_places};
ghost use Rattle.dstree.specs.Book.{batching};
ghost use Rattle.tables.specs.Tables.{measures_of};
ghost use Rattle.tables.specs.View.{tree_in};
ghost use Rattle.tables.specs.Lent.{tables_after_search, tables_before_search};
ghost use Rattle.calls.specs.Outcome as calls;
ghost use Rattle.calls.specs.Effects.{outcome_on};
ghost use Rattle.search.specs.Lent.{stored_tables};
ghost use Rattle.batch_leaves.specs.LeavesRead.{Searchable};
ghost use Rattle.batch_search.specs.Batched.{BatchSearched};
ghost use Rattle.batching.specs.Answered.{answer_by, answer_at, list_after};

use batch_search::searching::{BatchRead, search_batch};
use search::stored::Stored;
use segment::{Sample, Word};
use tables::Refusal;

// One answer. In C: struct { uint64_t trace; uint64_t distance; }, 16 bytes, aligned to 8.
#[repr(C)]
#[derive(Drop)]
pub struct AnswerRecord {
    pub trace: u64,
    pub distance: u64,
}

// What a batch found: how many leaves were read, or a refusal; a record for each query, two places each, trace number and distance. A refused
// one has the count 0.
#[derive(Clone, Copy)]
pub struct BatchFound {
    pub outcome: Result<u64, Refusal>,
    pub count: usize,
    pub bests: [u64; 32],
}

// The search, for a run of plain samples: it is made words first, at most 16 times 256.
fn search_given(
    stored: Stored,
    queries: &[Sample],
    many: usize,
    work: &mut [u64],
    trail: &mut [u16],
) -> BatchRead
    requires { Searchable (stored_tables stored) queries.now many
        × (work_needed (measures_of (stored_tables stored)) ≤ length work.old)
        × (length (leaves (tree_in (stored_tables stored))) ≤ length trail.old)
        × SamplesWithin sample_most queries.now }
    ensures { BatchSearched (stored_tables stored.entry)
        queries.now many work.old work.new trail.old trail.new result.bests
        result.leaves }
{
    let mut words: [Word; 4096] = [0; 4096];
    tables::given::words_of(queries, &mut words);
    let size = queries.len();
    search_batch(stored, &words[..size], many, work, trail)
}

// Matches the queries of a run together, for a list of so many records, whichever: what is to be stored there is given back. Every refusal
// is decided before anything is written. The trail begins with the leaves read, by rising number, and search work is left zero.
//
// Two wrong programs that the contract rules out: one that takes a longer list, and one that counts a leaf for each query that needs it.
pub fn match_all(
    control: &[u16],
    samples: &[Word],
    nodes: &[i64],
    links: &[u16],
    work: &mut [u64],
    labels: &[u64],
    trail: &mut [u16],
    queries: &[Sample],
    many: usize,
    places: usize,
) -> BatchFound
    ensures { (list : List Near) → length list ≡ places
        → calls.outcome (answer_by result.outcome (list_after result list) trail.new)
        (tables_after_search control samples nodes links work labels)
        (trail.new ∷ list_places (list_after result list) ∷ [])
        ≡ outcome_on (batching many queries.now trail.old list)
        (tables_before_search control samples nodes links work labels) }
{
    let judged = judging::judge(
        control, samples, nodes, links, work, labels, queries, many, places, trail,
    );
    match judged {
        Err(why) => BatchFound {
            outcome: Err(why),
            count: 0,
            bests: [0; 32],
        },
        Ok(()) => {
            let stored = Stored {
                control,
                samples,
                nodes,
                links,
            };
            let found = search_given(stored, queries, many, work, trail);
            let bests = found.bests;
            BatchFound {
                outcome: Ok(found.leaves as u64),
                count: many,
                bests,
            }
        }
    }
}

// The record of query i.
pub fn answer_at(found: BatchFound, i: usize) -> AnswerRecord
    ensures { result ≡ answer_at found i }
{
    if i < 16 {
        AnswerRecord {
            trace: found.bests[2 * i],
            distance: found.bests[2 * i + 1],
        }
    } else {
        AnswerRecord {
            trace: 0,
            distance: 0,
        }
    }
}
