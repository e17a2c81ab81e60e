// The table of figures filled: a column for each of a leaf's segments and for the halves of each.

ghost use Rattle.std.specs.Prelude.{◌≡◌, ◌≤◌, ◌<◌, length};
ghost use Rattle.tables.specs.Runs.{Inside};
ghost use Rattle.dstree.specs.Formed.{Rises};
ghost use Rattle.dstree.specs.Node.{most_segments};
ghost use Rattle.leaf_figures.specs.Ends.{ends_of, EndsRoom};
ghost use Rattle.leaf_figures.specs.Rows.{FullColumn, Columns, column_rows, most_runs};

use crate::ends::Ends;
use crate::listed::Listed;
use crate::table::{Column, Run};
use tables::runs::{figures_on, trace_at};

// A column becomes that of the list's traces on a run.
fn fill_column(traces: Listed, on: Run, column: &mut Column)
    requires { Inside traces.n on.first on.last × (length traces.list.now ≤ column_rows) × (length column.old.figures ≡ column_rows) }
    ensures { FullColumn traces.entry column.new }
{
    let list = traces.list;
    for p in 0..list.len() {
        let trace = trace_at(traces.samples, traces.n, usize::from(list[p]));
        column.figures[p] = figures_on(trace, on.first, on.last);
    }
    column.run = Some(on);
}

// A run with its column at f. What column f held before goes.
fn fill_run(traces: Listed, f: usize, on: Run, columns: &mut [Column; 48])
    requires { Inside traces.n on.first on.last × (length traces.list.now ≤ column_rows) × (f < most_runs)
        × Columns traces columns.old }
    ensures { Columns traces.entry columns.new }
{
    fill_column(traces, on, &mut columns[f]);
}

// A segment's column, and where its halves can be tried those of its halves, the left one rounded down.
fn fill_segment(traces: Listed, j: usize, on: Run, halves: bool, columns: &mut [Column; 48])
    requires { Inside traces.n on.first on.last × (length traces.list.now ≤ column_rows) × (j < most_segments)
        × Columns traces columns.old }
    ensures { Columns traces.entry columns.new }
{
    fill_run(traces, j, on, columns);
    if !halves || on.last <= on.first {
        return;
    }
    let (left, right) = on.halves();
    fill_run(traces, 16 + j, left, columns);
    fill_run(traces, 32 + j, right, columns);
}

// The columns of all segments with these right ends. A list of more than 65 traces gets none: whatever the columns are, they stay.
pub fn fill_rows(traces: Listed, e: Ends, columns: &mut [Column; 48])
    requires { EndsRoom e × Rises traces.n 1 (ends_of e) × (length traces.list.now ≤ column_rows → Columns traces columns.old) }
    ensures filled { length traces.entry.list.now ≤ column_rows → Columns traces.entry columns.new }
    ensures stays { column_rows < length traces.entry.list.now → columns.new ≡ columns.old }
{
    if 65 < traces.list.len() {
        return;
    }
    let at = e.at;
    let segments = e.count;
    let halves = segments < 16;
    let mut first: usize = 1;
    for i in 0..segments {
        let last = at[i];
        fill_segment(traces, i, Run { first, last }, halves, columns);
        first = last + 1;
    }
}
