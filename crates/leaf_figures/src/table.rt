// The table of figures that are kept: a column for each of a leaf's segments and for the halves of each.

ghost use Rattle.std.specs.Prelude.{◌≡◌, ◌≤◌, ◌<◌, map};
ghost use Rattle.dstree.specs.Measures.{most_samples};
ghost use Rattle.leaf_figures.specs.Rows.{left_half, right_half, viewed};

use segment::figures::Figures;

// The samples `first` to `last`.
#[derive(Clone, Copy, PartialEq, Eq)]
pub struct Run {
    pub first: usize,
    pub last: usize,
}

impl Run {
    // The two halves of a run of two samples or more, the left one rounded down.
    pub fn halves(self) -> (Run, Run)
        requires { (1 ≤ self.first) × (self.first < self.last) × (self.last ≤ most_samples) }
        ensures { result ≡ (left_half self, right_half self) }
    {
        let middle = self.first + (self.last - self.first + 1) / 2 - 1;
        let left = Run {
            first: self.first,
            last: middle,
        };
        let right = Run {
            first: middle + 1,
            last: self.last,
        };
        (left, right)
    }
}

// The figures of a list's traces on one run, in the order of the list. With no run, it has none.
#[derive(Clone, Copy)]
pub struct Column {
    pub run: Option<Run>,
    pub figures: [Figures; 65],
}

// The column of no run.
pub const NO_COLUMN: Column = Column {
    run: None,
    figures: [Figures { sum: 0, scatter: 0 }; 65],
};

// A column that is lent, with any number of rows: where figures lie one column behind another in one slice, a view may reach to its end.
#[derive(Clone, Copy)]
pub struct ColumnView<'a> {
    pub run: Option<Run>,
    pub figures: &'a [Figures],
}

// The view of no column.
pub const NO_VIEW: ColumnView<'static> = ColumnView {
    run: None,
    figures: &[],
};

// Each view is of the column in its place. What was viewed before does not matter.
pub fn view_columns<'a>(columns: &'a [Column; 48], views: &mut [ColumnView<'a>; 48])
    ensures { map viewed views.new ≡ columns.now }
{
    for (f, column) in columns.iter().enumerate() {
        views[f] = ColumnView {
            run: column.run,
            figures: &column.figures,
        };
    }
}

// Segment i's column is at i, its left half's at 16 + i, and its right half's at 32 + i. Trace t is in row `place[t]` of each.
#[derive(Drop)]
pub struct Table {
    pub place: [u16; 4096],
    pub columns: [Column; 48],
}
