// What exporting refuses: what every call on made tables does, then a rate or a trace number out of range or a trace beyond 16 bits (12),
// then a buffer below the need (8).

ghost use Rattle.std.specs.Prelude.{◌≡◌, ◌&&◌, [], ◌*◌, ◌≤◌, length, get_or, ltb};
ghost use Rattle.dstree.specs.Measures.{are_within};
ghost use Rattle.dstree.specs.Refusals.{first_of};
ghost use Rattle.dstree.specs.Sheet.{narrow_limit};
ghost use Rattle.dstree.specs.Recording.{rate_limit};
ghost use Rattle.dstree.specs.Book.{export_conditions};
ghost use Rattle.tables.specs.Tables.{measures_of, tables, trace_count};
ghost use Rattle.tables.specs.View.{traces_in};
ghost use Rattle.tables.specs.Shared.{tables_lent};
ghost use Rattle.tables.specs.Answers.{found_by};
ghost use Rattle.calls.specs.Effects.{exports};

use segment::Word;
use sheet::samples::all_narrow;
use tables::Refusal;
use tables::control::field;
use tables::lent::Lent;
use tables::numbers::{wide, wider};
use tables::places::{N, TRACE_COUNT};
use tables::runs::trace_at;
use well_formed::judging::judge_tables;

// A rate below 2^31, and the number of one of k traces. At full width: no number wraps into that.
fn in_range(k: u64, number: u64, rate: u64) -> bool
    ensures { result ≡ ltb rate rate_limit && ltb number k }
{
    if 2147483648 <= rate {
        return false;
    }
    number < k
}

// Both in range, and the trace's samples as two bytes say them.
fn recordable(control: &[u16], samples: &[Word], number: u64, rate: u64) -> bool
    requires { trace_count (tables control.now [] [] [] []) * (measures_of (tables control.now [] [] [] [])).n ≤ length samples.now }
    ensures { result ≡ ltb rate rate_limit && ltb number (trace_count (tables control.now [] [] [] []))
        && are_within narrow_limit (get_or (traces_in (tables control.now samples.now [] [] [])) number []) }
{
    if !in_range(wider(field(control, TRACE_COUNT)), number, rate) {
        return false;
    }
    let n = wide(field(control, N));
    all_narrow(trace_at(samples, n, number as usize))
}

// What is refused behind the tables.
fn judge_own(
    control: &[u16],
    samples: &[Word],
    buffer: &[u8],
    number: u64,
    rate: u64,
) -> Result<(), Refusal>
    requires { trace_count (tables control.now [] [] [] []) * (measures_of (tables control.now [] [] [] [])).n ≤ length samples.now }
    ensures { found_by result ≡ first_of (export_conditions (measures_of (tables control.now [] [] [] []))
        (trace_count (tables control.now [] [] [] []))
        (get_or (traces_in (tables control.now samples.now [] [] [])) number [])
        number rate buffer.now) }
{
    let need = 44 + 2 * wide(field(control, N));
    let bad = !recordable(control, samples, number, rate);
    let short = buffer.len() < need;
    if bad {
        return Err(Refusal::BadRecording);
    }
    if short {
        return Err(Refusal::SheetLength);
    }
    Ok(())
}

pub fn judge(lent: Lent, buffer: &[u8], number: u64, rate: u64) -> Result<(), Refusal>
    ensures { found_by result ≡ first_of (exports
        (tables_lent lent.entry)
        number rate buffer.now).conditions }
{
    judge_tables(lent)?;
    judge_own(lent.control, lent.samples, buffer, number, rate)
}
