// What adding refuses: what every call on made tables does, then a trace of another length (4), samples outside the limits (15), and last a
// full library (5).

ghost use Rattle.std.specs.Prelude.{◌≡◌};
ghost use Rattle.dstree.specs.Labels.{Label};
ghost use Rattle.dstree.specs.Refusals.{first_of};
ghost use Rattle.tables.specs.Shared.{tables_lent};
ghost use Rattle.tables.specs.Answers.{found_by};
ghost use Rattle.calls.specs.Effects.{adds};

use segment::Sample;
use tables::Refusal;
use tables::control::field;
use tables::given::are_samples;
use tables::lent::Lent;
use tables::numbers::wide;
use tables::places::{CAPACITY, N, TRACE_COUNT};
use well_formed::judging::judge_tables;

// Whatever the trace's label is.
pub fn judge(lent: Lent, trace: &[Sample]) -> Result<(), Refusal>
    ensures { (l : Label) → found_by result ≡ first_of (adds (tables_lent lent.entry) trace.now l).conditions }
{
    judge_tables(lent)?;
    let n = wide(field(lent.control, N));
    let capacity = field(lent.control, CAPACITY);
    let k = field(lent.control, TRACE_COUNT);
    let wrong = trace.len() != n;
    let full = k == capacity;
    if wrong {
        return Err(Refusal::WrongTrace);
    }
    let outside = !are_samples(trace);
    if outside {
        return Err(Refusal::SampleRange);
    }
    if full {
        return Err(Refusal::Full);
    }
    Ok(())
}
