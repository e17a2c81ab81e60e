// The nearest stored trace of lent tables.
#![tactic(auto)]

pub mod judging; // what a match refuses

ghost use Rattle.std.specs.Prelude.{◌≡◌, [], ◌∷◌};
ghost use Rattle.dstree.specs.Book.{matching};
ghost use Rattle.tables.specs.Lent.{tables_after_search, tables_before_search};
ghost use Rattle.calls.specs.Outcome.{outcome};
ghost use Rattle.calls.specs.Effects.{outcome_on};
ghost use Rattle.matching.specs.Answered.{answer_by};

use search::searching::search_all;
use search::stored::Stored;
use segment::{Sample, Word};
use tables::Refusal;
use tables::given::words_for;
use tables::lent::Lent;

// The nearest trace's number and its distance, leaves read and traces read.
#[derive(Clone, Copy, Debug, PartialEq, Eq)]
pub struct Found {
    pub trace: u64,
    pub distance: u64,
    pub leaves: u64,
    pub traces: u64,
}

// Finds the nearest trace. Every refusal is decided before anything is written. The trail begins with the leaves read, and search work is
// left zero.
//
// Two wrong programs that the contract rules out: one that leaves out a leaf whose bound equals the best distance, and one that writes past
// the trail's leaves.
pub fn nearest(
    control: &[u16],
    samples: &[Word],
    nodes: &[i64],
    links: &[u16],
    work: &mut [u64],
    labels: &[u64],
    trail: &mut [u16],
    query: &[Sample],
) -> Result<Found, Refusal>
    ensures { outcome (answer_by result trail.new)
        (tables_after_search control samples nodes links work labels)
        (trail.new ∷ [])
        ≡ outcome_on (matching query.now trail.old)
        (tables_before_search control samples nodes links work labels) }
{
    let lent = Lent {
        control,
        samples,
        nodes,
        links,
        work,
        labels,
    };
    judging::judge(lent, query, trail)?;
    let mut words: [Word; 256] = [0; 256];
    let words = words_for(query, &mut words);
    let stored = Stored {
        control,
        samples,
        nodes,
        links,
    };
    let seen = search_all(stored, words, work, trail);
    Ok(Found {
        trace: seen.trace,
        distance: seen.distance,
        leaves: seen.out as u64,
        traces: seen.traces as u64,
    })
}
