// Numbers in decimal, and the line in bytes.

ghost use Rattle.std.specs.Prelude.{◌≡◌, ◌∷◌, [], ◌++◌, ◌+◌, ◌≤◌, length};
ghost use Rattle.std.proofs.lemmas.List.Edits.{sets};
ghost use Rattle.dstree.specs.Program.{decimal, found, refused_line, text};
ghost use Rattle.tables.specs.Beginning.{over};
ghost use Rattle.sheet_line.specs.Lines.{line_by, line_room};

use matching::Found;
use sheet::fields::put_bytes;
use tables::Refusal;

// What a refusal's line begins with.
const REFUSED: [u8; 8] = *b"refused ";

// A number's digits, the last one last, from a place on; and the place behind them.
fn put_decimal(out: &mut [u8], place: usize, v: u64) -> usize
    requires { place + length (decimal v) ≤ length out.old }
    ensures { (result ≡ place + length (decimal v)) × (out.new ≡ sets out.old place (decimal v)) }
{
    let digit = (48 + v % 10) as u8;
    if v < 10 {
        out[place] = digit;
        return place + 1;
    }
    let last = put_decimal(out, place, v / 10);
    out[last] = digit;
    last + 1
}

// A number, and a byte behind it.
fn put_item(out: &mut [u8], place: usize, v: u64, end: u8) -> usize
    requires { place + length (decimal v ++ (end ∷ [])) ≤ length out.old }
    ensures { (result ≡ place + length (decimal v ++ (end ∷ [])))
        × (out.new ≡ sets out.old place (decimal v ++ (end ∷ []))) }
{
    let at = put_decimal(out, place, v);
    out[at] = end;
    at + 1
}

// Four numbers with single spaces, and the line's end.
fn put_numbers(out: &mut [u8], trace: u64, distance: u64, leaves: u64, traces: u64) -> usize
    requires { line_room ≤ length out.old }
    ensures { (result ≡ length (text (found trace distance leaves traces)))
        × (out.new ≡ over (text (found trace distance leaves traces)) out.old) }
{
    let second = put_item(out, 0, trace, 32);
    let third = put_item(out, second, distance, 32);
    let fourth = put_item(out, third, leaves, 32);
    put_item(out, fourth, traces, 10)
}

// `refused`, number, place, and the line's end.
fn put_refusal(out: &mut [u8], number: u64, block: u64) -> usize
    requires { line_room ≤ length out.old }
    ensures { (result ≡ length (text (refused_line number block)))
        × (out.new ≡ over (text (refused_line number block)) out.old) }
{
    put_bytes(out, 0, &REFUSED);
    let second = put_item(out, 8, number, 32);
    put_item(out, second, block, 10)
}

// The line of an answer, in the first places; and how many they are.
pub fn put_line(out: &mut [u8], answer: Result<Found, Refusal>) -> usize
    requires { line_room ≤ length out.old }
    ensures { (result ≡ length (text (line_by answer))) × (out.new ≡ over (text (line_by answer)) out.old) }
{
    match answer {
        Ok(seen) => put_numbers(out, seen.trace, seen.distance, seen.leaves, seen.traces),
        Err(why) => {
            let number = tables::answers::number(why);
            let block = tables::answers::place(why);
            put_refusal(out, number, block)
        }
    }
}
