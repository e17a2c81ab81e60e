// How many stored traces lie within each band of distances, from the records of lent tables.
#![tactic(auto)]

pub mod judging; // what a report refuses

ghost use Rattle.std.specs.Prelude.{◌≡◌, [], ◌∷◌, ◌-◌, length};
ghost use Rattle.dstree.specs.Book.{banding};
ghost use Rattle.tables.specs.Lent.{tables_after_search, tables_before_search};
ghost use Rattle.calls.specs.Outcome.{outcome};
ghost use Rattle.calls.specs.Effects.{outcome_on};
ghost use Rattle.banding.specs.Answered.{answer_by};

use band_counts::report::report;
use segment::{Sample, Word};
use tables::Refusal;
use tables::given::words_for;
use tables::lent::Lent;

// Reports, for each band from one edge up to but not including the next, how many traces surely lie in it and how many may: two places a
// band. Every refusal is decided before anything is written. The list's other places stay, and search work is left zero.
//
// Two wrong programs that the contract rules out: one that refuses a library without a trace, and one that counts a trace at an edge in
// the band below it.
pub fn count_bands(
    control: &[u16],
    samples: &[Word],
    nodes: &[i64],
    links: &[u16],
    work: &mut [u64],
    labels: &[u64],
    list: &mut [u64],
    query: &[Sample],
    edges: &[u64],
) -> Result<(), Refusal>
    ensures { outcome (answer_by result (length edges.now - 1) list.new)
        (tables_after_search control samples nodes links work labels)
        (list.new ∷ [])
        ≡ outcome_on (banding query.now edges.now list.old)
        (tables_before_search control samples nodes links work labels) }
{
    let lent = Lent {
        control,
        samples,
        nodes,
        links,
        work,
        labels,
    };
    judging::judge(lent, query, edges, list)?;
    let mut words: [Word; 256] = [0; 256];
    let words = words_for(query, &mut words);
    report(control, nodes, links, words, edges, work, list);
    Ok(())
}
