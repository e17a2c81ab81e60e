// Reads one sheet from standard input and prints its line: the match of the last trace among the earlier ones, or a refusal.
#![tactic(auto)]

ghost use Rattle.std.specs.Prelude.{◌≤◌, length, IfOk};

use std::io::{self, Read, Write};

// Reads until `out` is full or the input ends, and how many bytes that were. The library's `read_to_end` wants a Vec, which this program
// has none of, and reads on after an interruption, where this one ends with the error.
fn read_full(input: &mut impl Read, out: &mut [u8]) -> io::Result<usize>
    ensures { IfOk result (λ size. size ≤ length out.new) }
{
    let mut size: usize = 0;
    while size < out.len() {
        let more = input.read(&mut out[size..])?;
        if more == 0 {
            break;
        }
        size += more;
    }
    Ok(size)
}

fn main(rt: HostRuntime) -> io::Result<()> {
    // one byte more than a sheet may have: whatever is longer is refused by its length
    let mut sheet = [0u8; 65537];
    let size = read_full(&mut rt.reader(), &mut sheet)?;
    let mut out = [0u8; 84];
    let written = sheet_line::line(&sheet[..size], &mut out);
    io::writer(&rt).write_all(&out[..written])
}
