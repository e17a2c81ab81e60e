// The line that the program prints of a sheet.
#![tactic(auto)]

pub mod judging; // what the program refuses
pub mod answering; // the match of the last trace among the earlier ones
pub mod text; // numbers in decimal, and the line in bytes

ghost use Rattle.std.specs.Prelude.{◌≡◌};
ghost use Rattle.dstree.specs.Program.{program_line};
ghost use Rattle.sheet_line.specs.Lines.{line_by, put, line_in};

use matching::Found;
use tables::Refusal;

// Trace, distance, leaves and traces read of the last trace's match among the earlier ones, or a refusal.
//
// Two wrong programs that the contract rules out: one that has the query in the library, and one that refuses a sheet without traces before
// it looks at n.
pub fn answer_of(sheet: &[u8]) -> Result<Found, Refusal>
    ensures { line_by result ≡ program_line sheet.now }
{
    judging::judge_program(sheet)?;
    Ok(answering::match_sound(sheet))
}

// The line of a sheet of any bytes, in the first places of `out`, and how many they are. Nothing is written where the longest line has no
// room.
//
// Two wrong programs that the contract rules out: one that prints a refusal's place before its number, and one that leaves out the line's
// end.
pub fn line(sheet: &[u8], out: &mut [u8]) -> usize
    ensures { put result out.new ≡ line_in sheet.now out.old }
{
    if out.len() < 84 {
        return 0;
    }
    let answer = answer_of(sheet);
    text::put_line(out, answer)
}
