// Plays two scripts of calls through `replay`, one behind another on the same tables, and prints what each call answered: a line a call,
// with its name and the five numbers of its reply. These are 0 or a refusal's number, then the answer's values or the refusal's place. What
// they are is `replay::play`'s contract; the file stdout has document 01's example, as it is run.
#![tactic(auto)]

ghost use Rattle.std.specs.Prelude.{◌≡◌, IsErr, length};
ghost use Rattle.play_script.specs.Rows.{opened_rows, filled_rows, read_rows, rows_laid};

use replay::kinds::RowKind;
use replay::play;
use replay::replies::{REPLY_PLACES, lay};
use replay::rows::{Rows, number_at};
use screens::Screen;
use segment::Word;
use std::fmt::Display;
use std::io;

// ---- on standard output. What is written there is no value that a contract can name

// What numbers are called, and they behind it, in a line.
fn print_line<T: Copy + Display + Drop>(out: &mut Screen, name: impl Display + Drop, numbers: &[T])
    ensures { IsErr out.old → out.new ≡ out.old }
{
    print!(out; "{name}");
    for number in numbers {
        print!(out; " {}", *number);
    }
    println!(out);
}

// A line for each row of a script. (Each of them makes a call, so that it has a reply.)
fn print_replies(out: &mut Screen, script: &[u64], replies: &[u64])
    ensures { IsErr out.old → out.new ≡ out.old }
{
    for (row, reply) in Rows(script).zip(replies.chunks_exact(REPLY_PLACES)) {
        if let Ok(kind) = RowKind::try_from(number_at(row, 0)) {
            print_line(out, kind, reply);
        }
    }
}

// ---- the scripts: n = 4, capacity 3, leaf size 2, in tables that are just long enough

fn put_opened(script: &mut [u64])
    requires { length script.old ≡ 95 }
    ensures { script.new ≡ rows_laid opened_rows 0 script.old }
{
    // an opening with a leaf size of 65, and one that is not refused
    lay(script, 0, &[10u64, 0, 5, 12, 435, 3, 5, 3, 4, 3, 65]);
    lay(script, 11, &[10u64, 0, 5, 12, 435, 3, 5, 3, 4, 3, 2]);
    // a match with no trace stored, and an adding of three samples
    lay(script, 22, &[9u64, 2, 5, 12, 435, 3, 5, 3, 4, 1]);
    lay(script, 32, &[8u64, 1, 5, 12, 435, 3, 5, 3, 3]);
}

fn put_filled(script: &mut [u64])
    requires { length script.old ≡ 95 }
    ensures { script.new ≡ rows_laid filled_rows 41 script.old }
{
    // A, B and C, and one trace more than the capacity
    lay(script, 41, &[8u64, 1, 5, 12, 435, 3, 5, 3, 4]);
    lay(script, 50, &[8u64, 1, 5, 12, 435, 3, 5, 3, 4]);
    lay(script, 59, &[8u64, 1, 5, 12, 435, 3, 5, 3, 4]);
    lay(script, 68, &[8u64, 1, 5, 12, 435, 3, 5, 3, 4]);
    // a writing, and one that is lent a byte too few
    lay(script, 77, &[8u64, 3, 5, 12, 435, 3, 5, 3, 1024]);
    lay(script, 86, &[8u64, 3, 5, 12, 435, 3, 5, 3, 1023]);
}

fn put_read(script: &mut [u64])
    requires { length script.old ≡ 58 }
    ensures { script.new ≡ rows_laid read_rows 0 script.old }
{
    // the sheet that was written
    lay(script, 0, &[8u64, 4, 5, 12, 435, 3, 5, 3, 1024]);
    // three matches, the last with a trail for one leaf of two
    lay(script, 9, &[9u64, 2, 5, 12, 435, 3, 5, 3, 4, 2]);
    lay(script, 19, &[9u64, 2, 5, 12, 435, 3, 5, 3, 4, 2]);
    lay(script, 29, &[9u64, 2, 5, 12, 435, 3, 5, 3, 4, 1]);
    // a block of junk, and a match in the tables as this refused reading left them
    lay(script, 39, &[8u64, 4, 5, 12, 435, 3, 5, 3, 512]);
    lay(script, 48, &[9u64, 2, 5, 12, 435, 3, 5, 3, 4, 2]);
}

// In tables, trails and sheets with junk in every place. Whether all was written: a write that failed is told, whatever comes behind it.
fn play_scripts(mut out: Screen) -> io::Result<()>
    ensures { IsErr out → result ≡ out }
{
    let mut control = [7u16; 5];
    let mut samples: [Word; 12] = [7; 12];
    let mut nodes = [7i64; 435];
    let mut links = [7u16; 3];
    let mut work = [7u64; 5];
    let mut labels = [7u64; 3];
    let mut trails = [7u16; 7];
    let mut sheets = [7u8; 2047];
    let mut replies = [7u64; 50];
    let mut made = [0u64; 95];
    put_opened(&mut made);
    put_filled(&mut made);
    play(
        &mut control,
        &mut samples,
        &mut nodes,
        &mut links,
        &mut work,
        &mut labels,
        &mut trails,
        &mut sheets,
        &made,
        &[
            9, 9, 9, 9, 1, 2, 3, 0, 0, 0, 0, 4, 4, 4, 4, 0, 8, 0, 8, 5, 5, 5, 5,
        ],
        &mut replies,
    );
    print_replies(&mut out, &made, &replies);
    let mut read = [0u64; 58];
    put_read(&mut read);
    play(
        &mut control,
        &mut samples,
        &mut nodes,
        &mut links,
        &mut work,
        &mut labels,
        &mut trails,
        &mut sheets,
        &read,
        &[1, 1, 1, 1, 2, 2, 2, 2, 2, 2, 2, 2, 4, 4, 4, 4],
        &mut replies,
    );
    print_replies(&mut out, &read, &replies);
    print_line(&mut out, "trails", &trails);
    out.end()
}

fn main(rt: HostRuntime) -> io::Result<()> {
    play_scripts(Screen::new(rt.stdout()))
}
