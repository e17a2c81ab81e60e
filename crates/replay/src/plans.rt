// How much a row takes, and whether it can be played: by numbers alone.

ghost use Rattle.std.specs.Prelude.{◌≡◌, None, ◌-◌, ◌≤◌, MatchOption};
ghost use Rattle.tables.specs.Judge.{lengths_by};
ghost use Rattle.replay.specs.Script.{amounts, kind_by, fits_in, enough, playable, Planned};

use crate::kinds::RowKind;
use crate::rows::{lengths, number_at, places};
use crate::{Amounts, Plan};
use tables::Lengths;

// By the first two of a row's own numbers.
#[tactic(auto, unfolding(crate::specs::Script::kind_by))]
fn wanted(kind: RowKind, row: &[u64]) -> Amounts
    ensures { result ≡ (kind_by kind).takes row.now }
{
    let nothing = Amounts {
        samples: 0,
        trails: 0,
        sheets: 0,
    };
    let first = places(number_at(row, 7));
    match kind {
        RowKind::Opening => nothing,
        RowKind::Adding => Amounts {
            samples: first,
            ..nothing
        },
        RowKind::Matching => Amounts {
            samples: first,
            trails: places(number_at(row, 8)),
            ..nothing
        },
        RowKind::Writing | RowKind::Reading => Amounts {
            sheets: first,
            ..nothing
        },
    }
}

// No table is lent longer than it is.
#[tactic(auto, unfolding(crate::specs::Script::fits_in))]
fn fits(all: Lengths, lent: Lengths) -> bool
    ensures { result ≡ fits_in (lengths_by lent) (lengths_by all) }
{
    lent.control <= all.control
        && lent.samples <= all.samples
        && lent.nodes <= all.nodes
        && lent.links <= all.links
        && lent.work <= all.work
        && lent.labels <= all.labels
}

// No more is taken than is ahead.
#[tactic(auto, unfolding(crate::specs::Script::enough))]
fn is_enough(size: Amounts, ahead: Amounts) -> bool
    ensures { result ≡ enough size ahead }
{
    size.samples <= ahead.samples && size.trails <= ahead.trails && size.sheets <= ahead.sheets
}

// On tables of these lengths, where this much of all that there is has been taken.
pub fn plan(row: &[u64], lent: Lengths, at: Amounts, all: Amounts) -> Option<Plan>
    requires { (at.samples ≤ all.samples) × (at.trails ≤ all.trails) × (at.sheets ≤ all.sheets) }
    ensures { let ahead = amounts (all.samples - at.samples) (all.trails - at.trails) (all.sheets - at.sheets) in
        MatchOption result (playable (lengths_by lent) ahead row.now ≡ None)
        (λ plan. Planned (lengths_by lent) ahead row.now at plan) }
{
    if !fits(lent, lengths(row)) {
        return None;
    }
    let Ok(kind) = RowKind::try_from(number_at(row, 0)) else {
        return None;
    };
    let size = wanted(kind, row);
    let ahead = Amounts {
        samples: all.samples - at.samples,
        trails: all.trails - at.trails,
        sheets: all.sheets - at.sheets,
    };
    if !is_enough(size, ahead) {
        return None;
    }
    Some(Plan {
        kind,
        to: Amounts {
            samples: at.samples + size.samples,
            trails: at.trails + size.trails,
            sheets: at.sheets + size.sheets,
        },
    })
}
