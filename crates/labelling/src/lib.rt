// The bench's call: the fault code and the machine serial of a stored trace.
#![tactic(auto)]

pub mod judging; // what the call refuses

ghost use Rattle.std.specs.Prelude.{◌≡◌, []};
ghost use Rattle.dstree.specs.Book.{labelling};
ghost use Rattle.tables.specs.Lent.{tables_before};
ghost use Rattle.calls.specs.Outcome.{outcome};
ghost use Rattle.calls.specs.Effects.{outcome_on};
ghost use Rattle.labelling.specs.Answered.{answer_by};

use segment::Word;
use tables::Refusal;
use tables::label_table::{code_in, place_at, serial_in};
use tables::lent::Lent;

// Fault code and machine serial.
#[derive(Clone, Copy, Debug, PartialEq, Eq)]
pub struct Labelled {
    pub code: u64,
    pub serial: u64,
}

// Answers a stored trace's label. All tables are lent only to be read and to be long enough: they stay as they were, search work too.
//
// Two wrong programs that the contract rules out: one that answers zeros for a number below the capacity of which no trace is stored, and
// one that refuses a trace whose label is zero.
pub fn label(
    control: &[u16],
    samples: &[Word],
    nodes: &[i64],
    links: &[u16],
    work: &[u64],
    labels: &[u64],
    number: u64,
) -> Result<Labelled, Refusal>
    ensures { outcome (answer_by result)
        (tables_before control samples nodes links work labels)
        []
        ≡ outcome_on (labelling number)
        (tables_before control samples nodes links work labels) }
{
    let lent = Lent {
        control,
        samples,
        nodes,
        links,
        work,
        labels,
    };
    judging::judge(lent, number)?;
    let place = place_at(labels, number as usize);
    let code = code_in(place);
    let serial = serial_in(place);
    Ok(Labelled { code, serial })
}
