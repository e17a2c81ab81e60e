// Adding a trace to lent tables.
#![tactic(auto)]

pub mod judging; // what adding refuses
pub mod inserting; // a stored trace joins the tree
pub mod putting; // a trace put into tables that refuse nothing

ghost use Rattle.std.specs.Prelude.{◌≡◌, []};
ghost use Rattle.dstree.specs.Labels.{label, no_label, label_at};
ghost use Rattle.dstree.specs.Book.{adding};
ghost use Rattle.tables.specs.Lent.{tables_after_adding, tables_before_adding};
ghost use Rattle.calls.specs.Outcome.{outcome};
ghost use Rattle.calls.specs.Effects.{outcome_on};
ghost use Rattle.adding.specs.Answered.{answer_by};

use segment::{Sample, Word};
use tables::Refusal;
use tables::control::field;
use tables::label_table::{place_of, store};
use tables::lent::Lent;
use tables::numbers::wider;
use tables::places::TRACE_COUNT;

// Adds a trace with the label that a place of the table would hold: its low 16 bits are the fault code, the next 32 the machine serial.
// Answers the number of the trace, from 0.
// Every refusal is decided before anything is written. Search work is lent only to be long enough: it stays as it was.
//
// Two wrong programs that the contract rules out: one that splits a leaf as long as the leaf size, and one that refuses a full library
// before a trace of another length.
pub fn add_with(
    control: &mut [u16],
    samples: &mut [Word],
    nodes: &mut [i64],
    links: &mut [u16],
    work: &[u64],
    labels: &mut [u64],
    trace: &[Sample],
    place: u64,
) -> Result<u64, Refusal>
    ensures { outcome (answer_by result)
        (tables_after_adding control samples nodes links work labels)
        []
        ≡ outcome_on (adding trace.now (label_at place))
        (tables_before_adding control samples nodes links work labels) }
{
    let lent = Lent {
        control,
        samples,
        nodes,
        links,
        work,
        labels,
    };
    judging::judge(lent, trace)?;
    let k = wider(field(control, TRACE_COUNT));
    store(labels, k as usize, place);
    putting::put_given(control, samples, nodes, links, trace);
    Ok(k)
}

// Adds a trace whose label is zero: "zero from callers that give neither" code nor serial.
//
// Two wrong programs that the contract rules out: one that leaves the label that an earlier library had in that place, and one that zeroes
// the labels of all traces.
pub fn add(
    control: &mut [u16],
    samples: &mut [Word],
    nodes: &mut [i64],
    links: &mut [u16],
    work: &[u64],
    labels: &mut [u64],
    trace: &[Sample],
) -> Result<u64, Refusal>
    ensures { outcome (answer_by result)
        (tables_after_adding control samples nodes links work labels)
        []
        ≡ outcome_on (adding trace.now no_label)
        (tables_before_adding control samples nodes links work labels) }
{
    add_with(control, samples, nodes, links, work, labels, trace, 0)
}

// Adds a trace with its fault code and its machine's serial.
//
// Two wrong programs that the contract rules out: one that stores the label in the place of the trace before, and one that keeps the low
// half of the serial alone.
pub fn add_labelled(
    control: &mut [u16],
    samples: &mut [Word],
    nodes: &mut [i64],
    links: &mut [u16],
    work: &[u64],
    labels: &mut [u64],
    trace: &[Sample],
    code: u16,
    serial: u32,
) -> Result<u64, Refusal>
    ensures { outcome (answer_by result)
        (tables_after_adding control samples nodes links work labels)
        []
        ≡ outcome_on (adding trace.now (label code serial))
        (tables_before_adding control samples nodes links work labels) }
{
    let place = place_of(code, serial);
    add_with(control, samples, nodes, links, work, labels, trace, place)
}
