// Importing a recording into lent tables.
#![tactic(auto)]

pub mod judging; // what importing refuses

ghost use Rattle.std.specs.Prelude.{◌≡◌, []};
ghost use Rattle.dstree.specs.Book.{importing};
ghost use Rattle.tables.specs.Lent.{tables_after_adding, tables_before_adding};
ghost use Rattle.calls.specs.Outcome.{outcome};
ghost use Rattle.calls.specs.Effects.{outcome_on};
ghost use Rattle.importing.specs.Answered.{answer_by};

use loading::{Source, load};
use segment::Word;
use tables::Refusal;
use tables::control::field;
use tables::label_table::clear;
use tables::lent::Lent;
use tables::numbers::wide;
use tables::places::{N, TRACE_COUNT};

// Adds the traces of a file of any bytes, in order, all or none, and answers how many. Every refusal is decided before anything is written,
// and what was judged is not tested again: each trace goes into tables that are known to be well formed. A recording gives no labels, so
// that they are zero. Search work is lent only to be long enough: it stays as it was.
//
// Two wrong programs that the contract rules out: one that adds traces until the library is full and then refuses, and one that takes a
// file whose last trace is short.
pub fn import_recording(
    control: &mut [u16],
    samples: &mut [Word],
    nodes: &mut [i64],
    links: &mut [u16],
    work: &[u64],
    labels: &mut [u64],
    bytes: &[u8],
) -> Result<u64, Refusal>
    ensures { outcome (answer_by result)
        (tables_after_adding control samples nodes links work labels)
        []
        ≡ outcome_on (importing bytes.now)
        (tables_before_adding control samples nodes links work labels) }
{
    let lent = Lent {
        control,
        samples,
        nodes,
        links,
        work,
        labels,
    };
    let count = judging::judge(lent, bytes)?;
    let n = wide(field(control, N));
    let k = wide(field(control, TRACE_COUNT));
    clear(labels, k, count as usize);
    load(
        control,
        samples,
        nodes,
        links,
        Source::Recording,
        bytes,
        n,
        count as usize,
    );
    Ok(count)
}
