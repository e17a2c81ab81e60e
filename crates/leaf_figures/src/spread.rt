// The spread of the traces of a list.
ghost use Rattle.std.specs.Prelude.{◌≡◌, ◌≤◌, ◌<◌};
ghost use Rattle.segment.specs.Limits.{term_most, spread_most};
ghost use Rattle.dstree.specs.Figures.{run};
ghost use Rattle.dstree.specs.Adding.{segment_of, spread_on, spread};
ghost use Rattle.dstree.specs.Formed.{Rises};
ghost use Rattle.dstree.specs.Node.{most_segments};
ghost use Rattle.tables.specs.Runs.{Inside};
ghost use Rattle.leaf_figures.specs.Ends.{ends_of, EndsRoom};
ghost use Rattle.leaf_figures.specs.Rows.{all_traces};

use crate::along::figures_along;
use crate::ends::Ends;
use crate::rows::Rows;
use crate::table::Run;
use segment_bound::terms::spread_term;

// One segment's term of the spread.
fn segment_spread(rows: Rows, guess: usize, on: Run) -> u64
    requires { Inside rows.traces.n on.first on.last }
    ensures value { result ≡ spread_on (run on.first on.last)
        (segment_of (all_traces rows.entry.traces) (run on.first on.last)) }
    ensures size { result ≤ term_most }
{
    let f = figures_along(rows, Some(guess), on);
    let w = (on.last - on.first + 1) as u64;
    spread_term(w, f.least_sum, f.greatest_sum, f.greatest_scatter)
}

// The column that segment i may have, among those of segments of which one may be cut into its halves.
fn guess_at(i: usize, halved: Option<usize>) -> usize
    requires { i < most_segments }
{
    let Some(cut) = halved else {
        return i;
    };
    if i < cut {
        return i;
    }
    if i == cut {
        return 16 + i;
    }
    let before = i - 1;
    if before == cut { 32 + before } else { before }
}

// The spread of the list's traces, over segments with these right ends.
pub fn spread_along(rows: Rows, halved: Option<usize>, e: Ends) -> u64
    requires { EndsRoom e × Rises rows.traces.n 1 (ends_of e) }
    ensures value { result ≡ spread (ends_of e) (all_traces rows.entry.traces) }
    ensures size { result ≤ spread_most }
{
    let at = e.at;
    let segments = e.count;
    let mut total: u64 = 0;
    let mut first: usize = 1;
    for i in 0..segments {
        let last = at[i];
        total += segment_spread(rows, guess_at(i, halved), Run { first, last });
        first = last + 1;
    }
    total
}
