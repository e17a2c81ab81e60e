// What a clipped sweep refuses: what every call on made tables does, then what is wrong with its figures, then a library without a trace,
// then its list.

ghost use Rattle.std.specs.Prelude.{◌≡◌, length};
ghost use Rattle.segment.specs.Clipped.{is_crossed};
ghost use Rattle.dstree.specs.Clipped.{clipped_conditions};
ghost use Rattle.dstree.specs.Refusals.{first_of};
ghost use Rattle.tables.specs.Layout.{n_place, trace_count_place};
ghost use Rattle.tables.specs.Tables as t;
ghost use Rattle.tables.specs.Shared.{tables_lent};
ghost use Rattle.tables.specs.Answers.{found_by};
ghost use Rattle.calls.specs.Effects.{clips};

use segment::Sample;
use tables::Refusal;
use tables::control::field;
use tables::given::are_samples;
use tables::lent::Lent;
use tables::numbers::wide;
use tables::places::{N, TRACE_COUNT};
use well_formed::judging::judge_tables;

// Whether a low is above its high. A low that equals its high is a range of one number.
fn is_crossed(lows: &[Sample], highs: &[Sample]) -> bool
    requires { length lows.now ≡ length highs.now }
    ensures { result ≡ is_crossed lows.now highs.now }
{
    for i in 0..lows.len() {
        if highs[i] < lows[i] {
            return true;
        }
    }
    false
}

// Lows or highs not as many as a trace has samples (4), one of them outside the limits (15), a low above its high (19), no trace stored
// (6), a list with fewer places than traces are stored (7).
fn judge_own(
    control: &[u16],
    lows: &[Sample],
    highs: &[Sample],
    list: &[u16],
) -> Result<(), Refusal>
    ensures { found_by result ≡ first_of (clipped_conditions (t.field control.now n_place)
        (t.field control.now trace_count_place) lows.now highs.now list.now) }
{
    let n = wide(field(control, N));
    let stored = wide(field(control, TRACE_COUNT));
    let wrong = lows.len() != n;
    if wrong {
        return Err(Refusal::WrongTrace);
    }
    let wrong = highs.len() != n;
    if wrong {
        return Err(Refusal::WrongTrace);
    }
    let outside = !are_samples(lows);
    if outside {
        return Err(Refusal::SampleRange);
    }
    let outside = !are_samples(highs);
    if outside {
        return Err(Refusal::SampleRange);
    }
    if is_crossed(lows, highs) {
        return Err(Refusal::CrossedRange);
    }
    if stored == 0 {
        return Err(Refusal::Empty);
    }
    if list.len() < stored {
        return Err(Refusal::ShortTrail);
    }
    Ok(())
}

pub fn judge(lent: Lent, lows: &[Sample], highs: &[Sample], list: &[u16]) -> Result<(), Refusal>
    ensures { found_by result ≡ first_of (clips
        (tables_lent lent.entry)
        lows.now highs.now list.now).conditions }
{
    judge_tables(lent)?;
    judge_own(lent.control, lows, highs, list)
}
