// The nearest stored trace of two libraries, the factory's and the bench's.
#![tactic(auto)]

pub mod judging; // what a match over two libraries refuses
pub mod parts; // the winning trace, as part of the table that it lies in

ghost use Rattle.std.specs.Prelude.{◌≡◌, [], ◌∷◌};
ghost use Rattle.dstree.specs.Pair.{of_factory};
ghost use Rattle.dstree.specs.Book as book;
ghost use Rattle.tables.specs.Lent.{tables_after_search, tables_before_search};
ghost use Rattle.calls.specs.Outcome.{outcome};
ghost use Rattle.calls.specs.Effects.{other_in, outcome_on};
ghost use Rattle.pairing.specs.Answered.{answer_by};

use pair_search::searching::search_both;
use pair_search::turns::Whose;
use search::stored::Stored;
use segment::{Sample, Word};
use tables::Refusal;
use tables::given::words_for;
use tables::lent::Lent;

// Whose trace is the nearest, its number and its distance, the factory's leaves read, the bench's, and traces read over both.
#[derive(Clone, Copy, PartialEq, Eq)]
pub struct Paired {
    pub library: Whose,
    pub trace: u64,
    pub distance: u64,
    pub leaves: u64,
    pub bench_leaves: u64,
    pub traces: u64,
}

// Finds the nearest trace of both libraries, the factory's on equal distance. Every refusal is decided before anything is written. Each
// trail begins with the leaves read of its library, and the search work of both is left zero.
//
// Two wrong programs that the contract rules out: one that reads in the bench library all leaves up to the bench's own nearest, and one
// that tests the bench's tables first.
pub fn match_both(
    control: &[u16],
    samples: &[Word],
    nodes: &[i64],
    links: &[u16],
    work: &mut [u64],
    labels: &[u64],
    trail: &mut [u16],
    bench_control: &[u16],
    bench_samples: &[Word],
    bench_nodes: &[i64],
    bench_links: &[u16],
    bench_work: &mut [u64],
    bench_labels: &[u64],
    bench_trail: &mut [u16],
    query: &[Sample],
) -> Result<Paired, Refusal>
    ensures { outcome (answer_by result trail.new bench_trail.new)
        (tables_after_search control samples nodes links work labels)
        (trail.new ∷ bench_trail.new ∷ bench_work.new ∷ [])
        ≡ outcome_on (book.pairing of_factory
        (other_in (tables_before_search bench_control bench_samples bench_nodes bench_links bench_work bench_labels)
        bench_trail.old)
        query.now trail.old)
        (tables_before_search control samples nodes links work labels) }
{
    let factory = Lent {
        control,
        samples,
        nodes,
        links,
        work,
        labels,
    };
    let bench = Lent {
        control: bench_control,
        samples: bench_samples,
        nodes: bench_nodes,
        links: bench_links,
        work: bench_work,
        labels: bench_labels,
    };
    judging::judge(factory, trail, bench, bench_trail, query)?;
    let mut words: [Word; 256] = [0; 256];
    let words = words_for(query, &mut words);
    let stored = Stored {
        control,
        samples,
        nodes,
        links,
    };
    let bench_stored = Stored {
        control: bench_control,
        samples: bench_samples,
        nodes: bench_nodes,
        links: bench_links,
    };
    let seen = search_both(
        stored,
        bench_stored,
        words,
        work,
        trail,
        bench_work,
        bench_trail,
    );
    Ok(Paired {
        library: seen.library,
        trace: seen.trace,
        distance: seen.distance,
        leaves: seen.out as u64,
        bench_leaves: seen.bench_out as u64,
        traces: seen.traces as u64,
    })
}
