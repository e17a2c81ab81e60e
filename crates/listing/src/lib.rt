// The k nearest stored traces of lent tables.
#![tactic(auto)]

pub mod judging; // what a listing refuses

ghost use Rattle.std.specs.Prelude.{◌≡◌, [], ◌∷◌};
ghost use Rattle.dstree.specs.Book.{listing};
ghost use Rattle.tables.specs.Lent.{tables_after_search, tables_before_search};
ghost use Rattle.calls.specs.Outcome.{outcome};
ghost use Rattle.calls.specs.Effects.{outcome_on};
ghost use Rattle.listing.specs.Answered.{answer_by};

use search::searching::search_list;
use search::stored::Stored;
use segment::{Sample, Word};
use tables::Refusal;
use tables::given::words_for;
use tables::lent::Lent;

// Leaves read, traces read and how many traces are listed.
#[derive(Clone, Copy, Debug, PartialEq, Eq)]
pub struct Listed {
    pub leaves: u64,
    pub traces: u64,
    pub many: u64,
}

// Lists the k nearest traces by distance, then by number, two places each: trace number and distance. Every refusal is decided before
// anything is written. The trail begins with the leaves read, the list with what is listed; their other places stay, and search work is
// left zero.
//
// Two wrong programs that the contract rules out: one that stops once k traces are listed, though the next leaf's bound is not above the
// last one's distance, and one that fills the list up to k where fewer are stored.
pub fn k_nearest(
    control: &[u16],
    samples: &[Word],
    nodes: &[i64],
    links: &[u16],
    work: &mut [u64],
    labels: &[u64],
    trail: &mut [u16],
    list: &mut [u64],
    query: &[Sample],
    k: u64,
) -> Result<Listed, Refusal>
    ensures { outcome (answer_by result trail.new list.new)
        (tables_after_search control samples nodes links work labels)
        (trail.new ∷ list.new ∷ [])
        ≡ outcome_on (listing k query.now trail.old list.old)
        (tables_before_search control samples nodes links work labels) }
{
    let lent = Lent {
        control,
        samples,
        nodes,
        links,
        work,
        labels,
    };
    judging::judge(lent, query, trail, list, k)?;
    let mut words: [Word; 256] = [0; 256];
    let words = words_for(query, &mut words);
    let stored = Stored {
        control,
        samples,
        nodes,
        links,
    };
    let seen = search_list(stored, words, work, trail, list, k as usize);
    Ok(Listed {
        leaves: seen.out as u64,
        traces: seen.traces as u64,
        many: seen.listed as u64,
    })
}
