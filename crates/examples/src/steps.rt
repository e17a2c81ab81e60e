// A step of an example, on any tables: what is answered and left is what the calls' definitions say.

ghost use Rattle.std.specs.Prelude.{◌≡◌, [], ◌∷◌};
ghost use Rattle.dstree.specs.Labels.{no_label};
ghost use Rattle.dstree.specs.Book.{adding, matching};
ghost use Rattle.tables.specs.Tables.{node_count};
ghost use Rattle.tables.specs.Lent.{tables_after, tables_after_adding, tables_after_search, tables_before_adding, tables_before_all, tables_before_search};
ghost use Rattle.calls.specs.Outcome.{outcome};
ghost use Rattle.calls.specs.Effects.{outcome_on};
ghost use Rattle.adding.specs.Answered as added;
ghost use Rattle.matching.specs.Answered as found;
ghost use Rattle.examples.specs.Steps.{trail_junk, starred_in};

use matching::Found;
use segment::{Sample, Word};
use tables::Refusal;

// What an adding answers, and how many nodes there are then.
#[derive(Drop)]
pub struct AddingStep {
    pub answer: Result<u64, Refusal>,
    pub nodes: u16,
}

// What a match answers, and the trail that it leaves.
#[derive(Drop)]
pub struct MatchStep {
    pub answer: Result<Found, Refusal>,
    pub trail: [u16; 3],
}

pub fn add_to(
    control: &mut [u16],
    samples: &mut [Word],
    nodes: &mut [i64],
    links: &mut [u16],
    work: &[u64],
    labels: &mut [u64],
    trace: &[Sample],
) -> AddingStep
    ensures { (outcome (added.answer_by result.answer)
        (tables_after_adding control samples nodes links work labels) []
        ≡ outcome_on (adding trace.now no_label)
        (tables_before_adding control samples nodes links work labels))
        × (result.nodes ≡ node_count
        (tables_after_adding control samples nodes links work labels)) }
{
    let answer = adding::add(control, samples, nodes, links, work, labels, trace);
    let count = tables::control::field(control, tables::places::NODE_COUNT);
    AddingStep {
        answer,
        nodes: count,
    }
}

// The trail holds junk, and has places behind its leaves.
pub fn match_of(
    control: &[u16],
    samples: &[Word],
    nodes: &[i64],
    links: &[u16],
    work: &mut [u64],
    labels: &[u64],
    query: &[Sample],
) -> MatchStep
    ensures { outcome (found.answer_by result.answer result.trail)
        (tables_after_search control samples nodes links work labels) (result.trail ∷ [])
        ≡ outcome_on (matching query.now trail_junk)
        (tables_before_search control samples nodes links work labels) }
{
    let mut trail = [7u16; 3];
    let answer = matching::nearest(
        control, samples, nodes, links, work, labels, &mut trail, query,
    );
    MatchStep { answer, trail }
}

// The library of the starred example of a sheet: "n = 1, capacity 8, leaf size 2, trace (−1): checks 2,130 and 2,812".
pub fn put_starred(
    control: &mut [u16],
    samples: &mut [Word],
    nodes: &mut [i64],
    links: &mut [u16],
    work: &mut [u64],
    labels: &mut [u64],
)
    ensures { tables_after control samples nodes links work labels
        ≡ starred_in (tables_before_all control samples nodes links work labels) }
{
    let _ = opening::open(control, samples, nodes, links, work, labels, 1, 8, 2);
    let _ = adding::add(control, samples, nodes, links, work, labels, &[-1]);
}
