// A row, played: planned, then lent what it takes.

ghost use Rattle.std.specs.Prelude.{◌≡◌, Some};
ghost use Rattle.tables.specs.Tables.{labelled_tables, lent_of};
ghost use Rattle.tables.specs.Lent.{tables_after, tables_before_all};
ghost use Rattle.replay.specs.Script.{lent_by, state_at, AmountsInside, taken, ahead_of, asks, Planned};
ghost use Rattle.replay.specs.Script.{called, Plays, turned, turn_made, turn_of};

use crate::kinds::RowKind;
use crate::replies::{of_done, of_found, of_number};
use crate::rows::{lengths, number_at};
use crate::{Amounts, Plan, Turn, plans};
use segment::{Sample, Word};
use tables::Lengths;

// A row of any kind, lent the tables and all that it takes.
fn call(
    control: &mut [u16],
    samples: &mut [Word],
    nodes: &mut [i64],
    links: &mut [u16],
    work: &mut [u64],
    labels: &mut [u64],
    trail: &mut [u16],
    sheet: &mut [u8],
    query: &[Sample],
    row: &[u64],
    kind: RowKind,
) -> [u64; 5]
    ensures { Plays kind row.now
        (taken query.now trail.old sheet.old)
        (tables_before_all control samples nodes links work labels)
        (called result
        (tables_after control samples nodes links work labels)
        (taken query.now trail.new sheet.new)) }
{
    match kind {
        RowKind::Opening => {
            let n = number_at(row, 7);
            let capacity = number_at(row, 8);
            let leaf_size = number_at(row, 9);
            of_done(opening::open(
                control, samples, nodes, links, work, labels, n, capacity, leaf_size,
            ))
        }
        RowKind::Adding => of_number(adding::add(
            control, samples, nodes, links, work, labels, query,
        )),
        RowKind::Matching => of_found(matching::nearest(
            control, samples, nodes, links, work, labels, trail, query,
        )),
        RowKind::Writing => of_number(sheet_writing::write_sheet(
            control, samples, nodes, links, work, labels, sheet,
        )),
        RowKind::Reading => of_done(sheet_reading::read_sheet(
            control, samples, nodes, links, work, labels, sheet,
        )),
    }
}

// A row that can be played is lent the first so many places of each table, and the next so many samples, places of a trail and bytes of a
// sheet.
fn lend(
    control: &mut [u16],
    samples: &mut [Word],
    nodes: &mut [i64],
    links: &mut [u16],
    work: &mut [u64],
    labels: &mut [u64],
    trails: &mut [u16],
    sheets: &mut [u8],
    pool: &[Sample],
    row: &[u64],
    at: Amounts,
    plan: Plan,
) -> [u64; 5]
    requires amounts_inside { AmountsInside at pool.now trails.old sheets.old }
    requires planned { Planned
        (lent_of (labelled_tables control.old samples.old nodes.old links.old work.old labels.old))
        (ahead_of (state_at (labelled_tables control.old samples.old nodes.old links.old work.old labels.old) pool.now
        trails.old sheets.old at)) row.now at plan }
    ensures { turned (Some result) (state_at
        (tables_after control samples nodes links work labels)
        pool.now trails.new sheets.new plan.to)
        ≡ turn_made (lent_by row.now) (asks (lent_of
        (tables_before_all control samples nodes links work labels))
        row.now (state_at
        (tables_before_all control samples nodes links work labels)
        pool.now trails.old sheets.old at)) (state_at
        (tables_before_all control samples nodes links work labels)
        pool.now trails.old sheets.old at) }
{
    let lent = lengths(row);
    let to = plan.to;
    call(
        &mut control[..lent.control],
        &mut samples[..lent.samples],
        &mut nodes[..lent.nodes],
        &mut links[..lent.links],
        &mut work[..lent.work],
        &mut labels[..lent.labels],
        &mut trails[at.trails..to.trails],
        &mut sheets[at.sheets..to.sheets],
        &pool[at.samples..to.samples],
        row,
        plan.kind,
    )
}

// One row of a script. A row that cannot be played makes no call and takes nothing.
pub fn turn(
    control: &mut [u16],
    samples: &mut [Word],
    nodes: &mut [i64],
    links: &mut [u16],
    work: &mut [u64],
    labels: &mut [u64],
    trails: &mut [u16],
    sheets: &mut [u8],
    pool: &[Sample],
    row: &[u64],
    at: Amounts,
) -> Turn
    requires { AmountsInside at pool.now trails.old sheets.old }
    ensures { (turn_of result
        (tables_after control samples nodes links work labels)
        pool.now trails.new sheets.new
        ≡ turn_made (lent_by row.now) (asks (lent_of
        (tables_before_all control samples nodes links work labels))
        row.now (state_at
        (tables_before_all control samples nodes links work labels)
        pool.now trails.old sheets.old at)) (state_at
        (tables_before_all control samples nodes links work labels)
        pool.now trails.old sheets.old at))
        × AmountsInside result.at pool.now trails.old sheets.old }
{
    let lent = Lengths {
        control: control.len(),
        samples: samples.len(),
        nodes: nodes.len(),
        links: links.len(),
        work: work.len(),
        labels: labels.len(),
    };
    let all = Amounts {
        samples: pool.len(),
        trails: trails.len(),
        sheets: sheets.len(),
    };
    let Some(plan) = plans::plan(row, lent, at, all) else {
        return Turn { numbers: None, at };
    };
    let numbers = lend(
        control, samples, nodes, links, work, labels, trails, sheets, pool, row, at, plan,
    );
    Turn {
        numbers: Some(numbers),
        at: plan.to,
    }
}
