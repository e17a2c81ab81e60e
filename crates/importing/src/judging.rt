// What importing refuses: what every call on made tables does, then a bad recording (12), then more traces than there is room for (5). The
// file is judged once: what is found is the answer of the call.

ghost use Rattle.std.specs.Prelude.{◌≡◌, [], ◌≤◌, ◌<◌};
ghost use Rattle.dstree.specs.Recording.{judge_recording};
ghost use Rattle.dstree.specs.Book.{importing};
ghost use Rattle.tables.specs.Tables.{tables, measures_of, trace_count};
ghost use Rattle.tables.specs.Shared.{tables_lent};
ghost use Rattle.calls.specs.Effects.{outcome_on};
ghost use Rattle.importing.specs.Answered.{answer_by, file_answer};

use recording::judging::judge_recording;
use tables::Refusal;
use tables::control::field;
use tables::lent::Lent;
use tables::numbers::{wide, wider};
use tables::places::{CAPACITY, N, TRACE_COUNT};
use well_formed::judging::judge_tables;

// What is refused behind the tables.
fn judge_file(control: &[u16], bytes: &[u8]) -> Result<u64, Refusal>
    requires { (0 < (measures_of (tables control.now [] [] [] [])).n)
        × (trace_count (tables control.now [] [] [] []) ≤ (measures_of (tables control.now [] [] [] [])).capacity) }
    ensures { answer_by result ≡ file_answer (measures_of (tables control.now [] [] [] []))
        (trace_count (tables control.now [] [] [] []))
        (judge_recording (measures_of (tables control.now [] [] [] [])).n bytes.now) }
{
    let n = wide(field(control, N));
    let capacity = wider(field(control, CAPACITY));
    let k = wider(field(control, TRACE_COUNT));
    match judge_recording(bytes, n) {
        None => Err(Refusal::BadRecording),
        Some(count) => {
            if capacity - k < count {
                return Err(Refusal::Full);
            }
            Ok(count)
        }
    }
}

// How many traces the file has.
pub fn judge(lent: Lent, bytes: &[u8]) -> Result<u64, Refusal>
    ensures { answer_by result ≡ (outcome_on (importing bytes.now) (tables_lent lent.entry)).answer }
{
    judge_tables(lent)?;
    judge_file(lent.control, bytes)
}
