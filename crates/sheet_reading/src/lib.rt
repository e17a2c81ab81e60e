// Reading a sheet into lent tables.
#![tactic(auto)]

pub mod judging; // what reading refuses
pub mod labels; // the labels of its traces

ghost use Rattle.std.specs.Prelude.{◌≡◌, []};
ghost use Rattle.dstree.specs.Book.{reading};
ghost use Rattle.tables.specs.Lent.{tables_after, tables_before_all};
ghost use Rattle.calls.specs.Outcome.{outcome};
ghost use Rattle.calls.specs.Effects.{outcome_on};
ghost use Rattle.sheet_reading.specs.Answered.{answer_by};

use loading::{Source, load};
use opening::put_empty;
use segment::Word;
use sheet_judging::contents::head_of;
use tables::Refusal;
use tables::lent::Lent;

// Reads a sheet of any bytes: opens a library with its measures and adds its traces in order, each with its label. Every refusal is decided
// before anything is written, and what was judged is not tested again: each trace goes into tables that are known to be well formed.
//
// Two wrong programs that the contract rules out: one that opens the library before the last block was judged (a torn block then leaves the
// tables changed), and one that leaves the labels of the library before where the sheet has none.
pub fn read_sheet(
    control: &mut [u16],
    samples: &mut [Word],
    nodes: &mut [i64],
    links: &mut [u16],
    work: &mut [u64],
    labels: &mut [u64],
    sheet: &[u8],
) -> Result<(), Refusal>
    ensures { outcome (answer_by result)
        (tables_after control samples nodes links work labels)
        []
        ≡ outcome_on (reading sheet.now)
        (tables_before_all control samples nodes links work labels) }
{
    let lent = Lent {
        control,
        samples,
        nodes,
        links,
        work,
        labels,
    };
    judging::judge_reading(lent.lengths(), sheet)?;
    let head = head_of(sheet);
    let n = head.n;
    let count = head.count;
    put_empty(
        control,
        samples,
        nodes,
        links,
        work,
        labels,
        n,
        head.capacity,
        head.leaf,
    );
    labels::put_labels(labels, sheet, count as usize);
    load(
        control,
        samples,
        nodes,
        links,
        Source::Sheet,
        sheet,
        n as usize,
        count as usize,
    );
    Ok(())
}
