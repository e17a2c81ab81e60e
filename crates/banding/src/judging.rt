// What a report refuses: what every call on made tables does, then what is wrong with its query, its edges or its list. A library without
// a trace is not refused.

ghost use Rattle.std.specs.Prelude.{◌≡◌};
ghost use Rattle.dstree.specs.Bands.{is_edges, band_conditions};
ghost use Rattle.dstree.specs.Refusals.{first_of};
ghost use Rattle.tables.specs.Layout.{n_place};
ghost use Rattle.tables.specs.Tables as t;
ghost use Rattle.tables.specs.Shared.{tables_lent};
ghost use Rattle.tables.specs.Answers.{found_by};
ghost use Rattle.calls.specs.Effects.{bands};

use segment::Sample;
use tables::Refusal;
use tables::control::field;
use tables::given::are_samples;
use tables::lent::Lent;
use tables::numbers::wide;
use tables::places::N;
use well_formed::judging::judge_tables;

// 2 to 16 edges, each above the last. Equal ones do not rise.
fn are_edges(edges: &[u64]) -> bool
    ensures { result ≡ is_edges edges.now }
{
    if edges.len() < 2 {
        return false;
    }
    if 16 < edges.len() {
        return false;
    }
    for i in 1..edges.len() {
        if edges[i] <= edges[i - 1] {
            return false;
        }
    }
    true
}

// A query of another length than a trace (4), a sample outside the limits (15), bad edges (16), a list with fewer than two places for each
// band (7).
fn judge_own(control: &[u16], query: &[Sample], edges: &[u64], list: &[u64]) -> Result<(), Refusal>
    ensures { found_by result ≡ first_of (band_conditions (t.field control.now n_place) query.now
        edges.now list.now) }
{
    let n = wide(field(control, N));
    let wrong = query.len() != n;
    if wrong {
        return Err(Refusal::WrongTrace);
    }
    let outside = !are_samples(query);
    if outside {
        return Err(Refusal::SampleRange);
    }
    let bad = !are_edges(edges);
    if bad {
        return Err(Refusal::BadEdges);
    }
    if list.len() < 2 * (edges.len() - 1) {
        return Err(Refusal::ShortTrail);
    }
    Ok(())
}

pub fn judge(lent: Lent, query: &[Sample], edges: &[u64], list: &[u64]) -> Result<(), Refusal>
    ensures { found_by result ≡ first_of (bands
        (tables_lent lent.entry)
        query.now edges.now list.now).conditions }
{
    judge_tables(lent)?;
    judge_own(lent.control, query, edges, list)
}
