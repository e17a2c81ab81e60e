// The figures that are kept of a list's traces, so that samples are read once, and figures from them, or else from the samples.

ghost use Rattle.std.specs.Prelude.{◌≡◌, Some, IfSome, unwrap_or, slice_get};
ghost use Rattle.tables.specs.View.{trace_in};
ghost use Rattle.tables.specs.Runs.{RunOfTrace};
ghost use Rattle.leaf_figures.specs.Rows.{HasRows, HasViewedRows, RowsOn, RowOf, FiguresOf};

use crate::listed::Listed;
use crate::table::{ColumnView, Run, Table};
use segment::Word;
use segment::figures::Figures;
use tables::runs::{figures_on, trace_at};

// The column of a run, if it is the one that the caller thinks of. So a wrong guess costs time and nothing else.
pub fn column_of<'a, 'b>(
    columns: &'b [ColumnView<'a>],
    guess: Option<usize>,
    on: Run,
) -> Option<&'b ColumnView<'a>>
    ensures at_guess { IfSome result (λ c. slice_get columns.now (unwrap_or guess 0) ≡ Some c.now) }
    ensures of_run { IfSome result (λ c. c.now.run ≡ Some on) }
{
    let column = columns.get(guess?)?;
    if column.run? == on {
        Some(column)
    } else {
        None
    }
}

// Trace t's figures on a run: from its row of those that are kept, or from its samples where none are. Trace t's row is `place[t]`.
pub fn figures_at(
    samples: &[Word],
    n: usize,
    place: &[u16],
    kept: Option<&[Figures]>,
    t: usize,
    on: Run,
) -> Figures
    requires { RunOfTrace samples.now n t on.first on.last × IfSome kept (λ k. RowOf (trace_in samples.now n t) place.now on k.now t) }
    ensures { FiguresOf (trace_in samples.now n t) on result }
{
    match kept {
        Some(figures) => figures[usize::from(place[t])],
        None => figures_on(trace_at(samples, n, t), on.first, on.last),
    }
}

// Some traces, and the table of what is kept of their figures. It may have been made for more traces than these.
#[derive(Clone, Copy)]
pub struct TableRows<'a> {
    pub traces: Listed<'a>,
    pub table: &'a Table,
    pub ghost rows: { HasRows traces table.now },
}

// Some traces, and what is kept of their figures in lent columns, in each of which trace t has the row `place[t]`. They may have been made
// for more traces than these.
#[derive(Clone, Copy)]
pub struct Rows<'a> {
    pub traces: Listed<'a>,
    pub place: &'a [u16],
    pub columns: &'a [ColumnView<'a>],
    pub ghost rows: { HasViewedRows traces place.now columns.now },
}

impl<'a> Rows<'a> {
    // The column of a run, as `column_of` has it: the traces have their rows in it.
    pub fn column_of(self, guess: Option<usize>, on: Run) -> Option<&'a ColumnView<'a>>
        ensures at_guess { IfSome result (λ c. slice_get self.entry.columns.now (unwrap_or guess 0) ≡ Some c.now) }
        ensures rows { IfSome result (λ c. RowsOn self.entry.traces self.entry.place.now on c.now.figures.now) }
        ensures of_run { IfSome result (λ c. c.now.run ≡ Some on) }
    {
        column_of(self.columns, guess, on)
    }

    // What is kept of the traces' figures on a run, if it is in the column that the caller thinks of.
    pub fn kept_on(self, guess: Option<usize>, on: Run) -> Option<&'a [Figures]>
        ensures { IfSome result (λ k. RowsOn self.entry.traces self.entry.place.now on k.now) }
    {
        let column = self.column_of(guess, on)?;
        Some(column.figures)
    }
}
