// The nearest stored trace of lent tables, with a limit on the leaves that are read.
#![tactic(auto)]

pub mod judging; // what a match with a limit refuses

ghost use Rattle.std.specs.Prelude.{◌≡◌, [], ◌∷◌};
ghost use Rattle.dstree.specs.Book.{limiting};
ghost use Rattle.tables.specs.Lent.{tables_after_search, tables_before_search};
ghost use Rattle.calls.specs.Outcome.{outcome};
ghost use Rattle.calls.specs.Effects.{outcome_on};
ghost use Rattle.limiting.specs.Answered.{answer_by};

use search::searching::search_within;
use search::stored::Stored;
use segment::{Sample, Word};
use tables::Refusal;
use tables::given::words_for;
use tables::lent::Lent;

// Trace number, distance, leaves read and traces read: of the match, if the whole trail was read; else of the best so far, with the bound of
// the first unread leaf.
#[derive(Clone, Copy, Debug, PartialEq, Eq)]
pub struct Limited {
    pub trace: u64,
    pub distance: u64,
    pub leaves: u64,
    pub traces: u64,
    pub unread: Option<u64>,
}

// Finds the nearest trace in the first leaves of the match's trail, at most so many. Every refusal is decided before anything is written.
// The trail begins with the leaves read, and search work is left zero.
//
// Two wrong programs that the contract rules out: one that calls an answer settled though the next leaf's bound equals the distance found,
// and one that takes a trail with a place for each leaf that may be read, and not for every leaf.
pub fn match_within(
    control: &[u16],
    samples: &[Word],
    nodes: &[i64],
    links: &[u16],
    work: &mut [u64],
    labels: &[u64],
    trail: &mut [u16],
    query: &[Sample],
    most: u64,
) -> Result<Limited, Refusal>
    ensures { outcome (answer_by result trail.new)
        (tables_after_search control samples nodes links work labels)
        (trail.new ∷ [])
        ≡ outcome_on (limiting most query.now trail.old)
        (tables_before_search control samples nodes links work labels) }
{
    let lent = Lent {
        control,
        samples,
        nodes,
        links,
        work,
        labels,
    };
    judging::judge(lent, query, trail, most)?;
    let mut words: [Word; 256] = [0; 256];
    let words = words_for(query, &mut words);
    let stored = Stored {
        control,
        samples,
        nodes,
        links,
    };
    let seen = search_within(stored, words, work, trail, most);
    Ok(Limited {
        trace: seen.trace,
        distance: seen.distance,
        leaves: seen.out as u64,
        traces: seen.traces as u64,
        unread: seen.unread,
    })
}
