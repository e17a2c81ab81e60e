// The jog remote's one call: a match whose answer adds the fault code of the trace that it finds.
#![tactic(auto)]

ghost use Rattle.std.specs.Prelude.{◌≡◌, [], ◌∷◌};
ghost use Rattle.dstree.specs.Book.{remote_matching};
ghost use Rattle.tables.specs.Lent.{tables_after_search, tables_before_search};
ghost use Rattle.calls.specs.Outcome.{outcome};
ghost use Rattle.calls.specs.Effects.{outcome_on};
ghost use Rattle.remote.specs.Answered.{answer_by};

use matching::nearest;
use segment::{Sample, Word};
use tables::Refusal;
use tables::label_table::{code_in, place_at};

// The nearest trace's number and its distance, leaves read and traces read, and the trace's fault code.
#[derive(Clone, Copy, Debug, PartialEq, Eq)]
pub struct RemoteFound {
    pub trace: u64,
    pub distance: u64,
    pub leaves: u64,
    pub traces: u64,
    pub code: u64,
}

// Finds the nearest trace and its fault code. It refuses what a match refuses and leaves what a match leaves: the trail begins with the
// leaves read, and search work is left zero.
//
// Two wrong programs that the contract rules out: one that adds a part of the machine serial, and one that refuses a trace whose label is
// zero.
pub fn remote_match(
    control: &[u16],
    samples: &[Word],
    nodes: &[i64],
    links: &[u16],
    work: &mut [u64],
    labels: &[u64],
    trail: &mut [u16],
    query: &[Sample],
) -> Result<RemoteFound, Refusal>
    ensures { outcome (answer_by result trail.new)
        (tables_after_search control samples nodes links work labels)
        (trail.new ∷ [])
        ≡ outcome_on (remote_matching query.now trail.old)
        (tables_before_search control samples nodes links work labels) }
{
    let found = nearest(control, samples, nodes, links, work, labels, trail, query)?;
    let place = place_at(labels, found.trace as usize);
    Ok(RemoteFound {
        trace: found.trace,
        distance: found.distance,
        leaves: found.leaves,
        traces: found.traces,
        code: code_in(place),
    })
}
