// The examples of document 01, and some of document 02, run: what each call answers, held to the file stdout; walks along a leaf, and
// distances with a limit. A step answers values, with a contract (`steps`); here the steps are put together, and printed. A function
// that prints alone, in memory of its own, promises only that a write that failed is not forgotten.
#![tactic(auto)]

mod steps; // traces added, queries matched, a sheet written
mod walks; // a candidate's test, along a leaf

ghost use Rattle.std.specs.Prelude.{◌≡◌, [], ◌∷◌, ◌<◌, ◌≤◌, length, IsErr, IfOk};
ghost use Rattle.dstree.specs.Book.{writing};
ghost use Rattle.dstree.specs.Measures.{most_samples};
ghost use Rattle.tables.specs.Lent.{tables_after, tables_after_adding, tables_after_search, tables_before_adding, tables_before_all, tables_before_search};
ghost use Rattle.calls.specs.Effects.{outcome_on};
ghost use Rattle.examples.specs.Steps.{starred_in, junk, damaged, parts};
ghost use Rattle.examples.specs.Steps.{added_each, matched_each, read_matched, read_each};

use crate::steps::{AddingStep, MatchStep, add_to, match_of, put_starred};
use crate::walks::{nine, twins};
use candidate::parting::Look;
use matching::Found;
use screens::Screen;
use segment::within::Distance;
use segment::{Sample, Word};
use sheet::fields::put_bytes;
use std::alloc::{AllocError, Global};
use std::io;
use tables::Refusal;

// ---- answers as text, on standard output. What is written there is no value that a contract can name; each line is held to the file stdout
// when the program is run

fn print_refusal(out: &mut Screen, why: Refusal)
    ensures { IsErr out.old → out.new ≡ out.old }
{
    let number = tables::answers::number(why);
    let place = tables::answers::place(why);
    print!(out; "refused {number} {place}");
}

// Of a call that answers only that it succeeded.
fn print_done(out: &mut Screen, done: &str, answer: Result<(), Refusal>)
    ensures { IsErr out.old → out.new ≡ out.old }
{
    match answer {
        Ok(()) => print!(out; "{done}"),
        Err(why) => print_refusal(out, why),
    }
    println!(out);
}

fn print_adding(out: &mut Screen, step: AddingStep)
    ensures { IsErr out.old → out.new ≡ out.old }
{
    let AddingStep { answer, nodes } = step;
    match answer {
        Ok(k) => print!(out; "added {k}"),
        Err(why) => print_refusal(out, why),
    }
    println!(out; "\n  nodes {nodes}");
}

fn print_query(out: &mut Screen, samples: &[Sample])
    ensures { IsErr out.old → out.new ≡ out.old }
{
    print!(out; "match");
    for x in samples {
        print!(out; " {}", *x);
    }
    print!(out; ": ");
}

// The leaves read, which the trail begins with.
fn print_trail(out: &mut Screen, trail: &[u16], leaves: u64)
    ensures { IsErr out.old → out.new ≡ out.old }
{
    print!(out; " trail");
    for node in trail.iter().take(leaves as usize) {
        print!(out; " {}", *node);
    }
}

fn print_match(out: &mut Screen, step: MatchStep)
    ensures { IsErr out.old → out.new ≡ out.old }
{
    let MatchStep { answer, trail } = step;
    match answer {
        Ok(
            Found {
                trace,
                distance,
                leaves,
                traces,
            },
        ) => {
            print!(out; "trace {trace} distance {distance} leaves {leaves} traces {traces}");
            print_trail(out, &trail, leaves);
        }
        Err(why) => print_refusal(out, why),
    }
    println!(out);
}

// "Bytes 510 to 511" of block 0 and of block 1.
fn print_checks(out: &mut Screen, sheet: &[u8])
    ensures { IsErr out.old → out.new ≡ out.old }
{
    if 1024 <= sheet.len() {
        let first = sheet::fields::two_bytes(sheet, 510);
        let second = sheet::fields::two_bytes(sheet, 1022);
        print!(out; " checks {first} {second}");
    }
}

fn print_writing(out: &mut Screen, answer: Result<u64, Refusal>, sheet: &[u8])
    ensures { IsErr out.old → out.new ≡ out.old }
{
    match answer {
        Ok(blocks) => {
            print!(out; "blocks {blocks}");
            print_checks(out, sheet);
        }
        Err(why) => print_refusal(out, why),
    }
    println!(out);
}

// Whether both sides were seen, and how many traces that took.
fn print_walk(out: &mut Screen, words: &str, seen: Look)
    ensures { IsErr out.old → out.new ≡ out.old }
{
    let both = if seen.both { "yes" } else { "no" };
    println!(out; "{words}: {both}, took {}", seen.taken);
}

fn print_distance(out: &mut Screen, answer: Distance)
    ensures { IsErr out.old → out.new ≡ out.old }
{
    match answer {
        Distance::Exact(d) => println!(out; "exact {d}"),
        Distance::Beyond(samples) => println!(out; "beyond {samples}"),
    }
}

// ---- openings: "n 256, capacity 4,096, leaf size 64 open; 257, 4,097, 65 and 0 do not"

// An opening in tables that are just long enough for the largest library, with junk in every place. What it answers is `opening::open`'s
// contract; with tables of a million places in a contract of its own the prover would compute. The two large tables are on the heap, since a
// program's stack need not have 10 MB.
fn in_largest_tables(
    alloc: Global,
    n: u64,
    capacity: u64,
    leaf_size: u64,
) -> Result<Result<(), Refusal>, AllocError> {
    let mut control = [7u16; 5];
    let mut samples: Vec<Word> = vec![in alloc; 7; 1048576]?;
    let mut nodes: Vec<i64> = vec![in alloc; 7; 712617]?;
    let mut links = [7u16; 4096];
    let mut work = [7u64; 8191];
    let mut labels = [7u64; 4096];
    Ok(opening::open(
        &mut control,
        &mut samples,
        &mut nodes,
        &mut links,
        &mut work,
        &mut labels,
        n,
        capacity,
        leaf_size,
    ))
}

fn opening_of(
    out: &mut Screen,
    alloc: Global,
    n: u64,
    capacity: u64,
    leaf_size: u64,
) -> Result<(), AllocError>
    ensures { IsErr out.old → out.new ≡ out.old }
{
    print!(out; "open {n} {capacity} {leaf_size}: ");
    print_done(
        out,
        "opened",
        in_largest_tables(alloc, n, capacity, leaf_size)?,
    );
    Ok(())
}

fn run_openings(out: &mut Screen, alloc: Global) -> Result<(), AllocError>
    ensures { IsErr out.old → out.new ≡ out.old }
{
    opening_of(out, alloc, 256, 4096, 64)?;
    opening_of(out, alloc, 1, 1, 1)?;
    opening_of(out, alloc, 257, 4096, 64)?;
    opening_of(out, alloc, 256, 4097, 64)?;
    opening_of(out, alloc, 256, 4096, 65)?;
    opening_of(out, alloc, 0, 4096, 64)?;
    opening_of(out, alloc, 256, 0, 64)?;
    opening_of(out, alloc, 256, 4096, 0)?;
    opening_of(out, alloc, 65792, 4096, 64)?;
    opening_of(
        out,
        alloc,
        18446744073709551615,
        18446744073709551615,
        18446744073709551615,
    )
}

// ---- libraries

// Every n samples added as a trace, the last ones even if they are fewer.
fn add_all(
    out: &mut Screen,
    control: &mut [u16],
    samples: &mut [Word],
    nodes: &mut [i64],
    links: &mut [u16],
    work: &[u64],
    labels: &mut [u64],
    n: usize,
    traces: &[Sample],
)
    requires { 0 < n }
    ensures tables { tables_after_adding control samples nodes links work labels
        ≡ added_each (tables_before_adding control samples nodes links work labels)
        (parts n traces.now) }
    ensures failure { IsErr out.old → out.new ≡ out.old }
{
    for trace in traces.chunks(n) {
        print_adding(
            out,
            add_to(control, samples, nodes, links, work, labels, trace),
        );
    }
}

// Every n samples matched, in a line that begins with them.
fn match_all(
    out: &mut Screen,
    control: &[u16],
    samples: &[Word],
    nodes: &[i64],
    links: &[u16],
    work: &mut [u64],
    labels: &[u64],
    n: usize,
    queries: &[Sample],
)
    requires { 0 < n }
    ensures tables { tables_after_search control samples nodes links work labels
        ≡ matched_each (tables_before_search control samples nodes links work labels)
        (parts n queries.now) }
    ensures failure { IsErr out.old → out.new ≡ out.old }
{
    for query in queries.chunks(n) {
        print_query(out, query);
        print_match(
            out,
            match_of(control, samples, nodes, links, work, labels, query),
        );
    }
}

// A library with a capacity of 8, in tables with junk in every place.
fn library(out: &mut Screen, n: u16, leaf_size: u64, traces: &[Sample], queries: &[Sample])
    requires { 0 < n }
    ensures { IsErr out.old → out.new ≡ out.old }
{
    let mut control = [7u16; 5];
    let mut samples: [Word; 32] = [7; 32];
    let mut nodes = [7i64; 1305];
    let mut links = [7u16; 8];
    let mut work = [7u64; 15];
    let mut labels = [7u64; 8];
    print_done(
        out,
        "opened",
        opening::open(
            &mut control,
            &mut samples,
            &mut nodes,
            &mut links,
            &mut work,
            &mut labels,
            u64::from(n),
            8,
            leaf_size,
        ),
    );
    add_all(
        out,
        &mut control,
        &mut samples,
        &mut nodes,
        &mut links,
        &work,
        &mut labels,
        usize::from(n),
        traces,
    );
    match_all(
        out,
        &control,
        &samples,
        &nodes,
        &links,
        &mut work,
        &labels,
        usize::from(n),
        queries,
    );
}

fn run_libraries(out: &mut Screen)
    ensures { IsErr out.old → out.new ≡ out.old }
{
    // "n = 4, leaf size 2, capacity 8: add A (0,0,0,0), B (4,4,4,4), C (0,8,0,8)", then a trace of another length
    library(
        out,
        4,
        2,
        &[0, 0, 0, 0, 4, 4, 4, 4, 0, 8, 0, 8, 1, 2, 3],
        &[1, 1, 1, 1, 2, 2, 2, 2, 4, 4, 4, 4],
    );
    // "n = 3, stored (0,0,0), query (1,0,0)"
    library(out, 3, 2, &[0, 0, 0], &[1, 0, 0]);
    // "Leaf size 1, (1,2,1,2) and (2,1,2,1): one leaf of two"
    library(out, 4, 1, &[1, 2, 1, 2, 2, 1, 2, 1], &[2, 1, 2, 1]);
    // document 02, §9: "−524,288 to 524,287", and 15 for a sample outside these
    library(
        out,
        2,
        2,
        &[524287, 524287, 0, 524288, -524289, 0],
        &[-524288, -524288, 524287, 524288],
    );
}

// ---- a sheet: written, read back into other tables and searched there; then read damaged

// The starred example, written to a sheet with junk in every place.
fn write_to(out: &mut Screen, sheet: &mut [u8], words: &str)
    ensures sheet { sheet.new ∷ [] ≡ (outcome_on (writing sheet.old) (starred_in junk)).beside }
    ensures failure { IsErr out.old → out.new ≡ out.old }
{
    let mut control = [7u16; 5];
    let mut samples: [Word; 8] = [7; 8];
    let mut nodes = [7i64; 1305];
    let mut links = [7u16; 8];
    let mut work = [7u64; 15];
    let mut labels = [7u64; 8];
    put_starred(
        &mut control,
        &mut samples,
        &mut nodes,
        &mut links,
        &mut work,
        &mut labels,
    );
    let answer = sheet_writing::write_sheet(
        &control, &samples, &nodes, &links, &work, &labels, sheet,
    );
    print!(out; "{words}: ");
    print_writing(out, answer, sheet);
}

// What was done to a sheet before it is read, by its place.
fn words_of(place: usize) -> &'static str {
    match place {
        0 => "read",
        1 => "read, a sample changed",
        _ => "read, block 0 alone",
    }
}

// A sheet read, and the trace matched in the tables as that leaves them.
fn read_one(
    out: &mut Screen,
    control: &mut [u16],
    samples: &mut [Word],
    nodes: &mut [i64],
    links: &mut [u16],
    work: &mut [u64],
    labels: &mut [u64],
    sheet: &[u8],
)
    ensures tables { tables_after control samples nodes links work labels
        ≡ read_matched (tables_before_all control samples nodes links work labels)
        sheet.now }
    ensures failure { IsErr out.old → out.new ≡ out.old }
{
    print_done(
        out,
        "done",
        sheet_reading::read_sheet(control, samples, nodes, links, work, labels, sheet),
    );
    match_all(out, control, samples, nodes, links, work, labels, 1, &[-1]);
}

// Sheets of two blocks, the last of them even if it is shorter, read into the same tables: "a refused call changes nothing", so that the
// trace is found after each.
fn read_all(
    out: &mut Screen,
    control: &mut [u16],
    samples: &mut [Word],
    nodes: &mut [i64],
    links: &mut [u16],
    work: &mut [u64],
    labels: &mut [u64],
    sheets: &[u8],
)
    ensures tables { tables_after control samples nodes links work labels
        ≡ read_each (tables_before_all control samples nodes links work labels)
        (parts 1024 sheets.now) }
    ensures failure { IsErr out.old → out.new ≡ out.old }
{
    for (i, sheet) in sheets.chunks(1024).enumerate() {
        print!(out; "{}: ", words_of(i));
        read_one(out, control, samples, nodes, links, work, labels, sheet);
    }
}

fn read_back(out: &mut Screen, sheets: &[u8])
    ensures { IsErr out.old → out.new ≡ out.old }
{
    let mut control = [7u16; 5];
    let mut samples: [Word; 8] = [7; 8];
    let mut nodes = [7i64; 1305];
    let mut links = [7u16; 8];
    let mut work = [7u64; 15];
    let mut labels = [7u64; 8];
    read_all(
        out,
        &mut control,
        &mut samples,
        &mut nodes,
        &mut links,
        &mut work,
        &mut labels,
        sheets,
    );
}

// A sheet of two blocks as it is, with a sample changed, and its block 0 alone. The byte changed is the low one of the sample: 255 in two's
// complement.
fn damage(sheet: &[u8], sheets: &mut [u8])
    requires { (length sheet.now ≡ 1024) × (length sheets.old ≡ 2560) }
    ensures { sheets.new ≡ damaged sheet.now sheets.old }
{
    put_bytes(sheets, 0, sheet);
    put_bytes(sheets, 1024, sheet);
    put_bytes(sheets, 2048, &sheet[0..512]);
    sheets[1540] = 254;
}

fn run_sheets(out: &mut Screen)
    ensures { IsErr out.old → out.new ≡ out.old }
{
    let mut sheet = [7u8; 1024];
    write_to(out, &mut sheet, "write 1 8 2");
    let mut short = [7u8; 1023];
    write_to(out, &mut short, "write to 1023 bytes");
    let mut sheets = [0u8; 2560];
    damage(&sheet, &mut sheets);
    read_back(out, &sheets);
}

// ---- document 02, §3: "the fewest first ones that show both sides, or all when none do"

fn run_walks(out: &mut Screen)
    ensures { IsErr out.old → out.new ≡ out.old }
{
    // 0, 1 and 9: T = 9 by sum, so that 9 alone goes right; T = 0 by scatter, and all go left
    print_walk(out, "walk 0 1 9 by sum, T 9", nine(false, 9));
    print_walk(out, "walk 0 1 9 by scatter, T 0", nine(true, 0));
    // (1,2,1,2) and (2,1,2,1), which nothing parts: sums of 6, T = 12
    print_walk(out, "walk 1 2 1 2, 2 1 2 1 by sum, T 12", twins());
}

// ---- distances with a limit: document 02, "Leave a hopeless trace early"

// How far the samples of x are from those of y, as they are stored, in a line that begins with words and the limit.
fn distance_of(out: &mut Screen, words: &str, x: &[Word], y: &[Word], limit: u64)
    requires { (length x.now ≡ length y.now) × (length x.now ≤ most_samples) }
    ensures { IsErr out.old → out.new ≡ out.old }
{
    print!(out; "{words} {limit}: ");
    print_distance(out, segment::within::distance_within(x, y, limit));
}

fn run_distances(out: &mut Screen)
    ensures { IsErr out.old → out.new ≡ out.old }
{
    let words = "two samples, 2 apart, limit";
    let x: [Word; 2] = [0, 0];
    let y: [Word; 2] = [8192, 8192];
    distance_of(out, words, &x, &y, 3);
    distance_of(out, words, &x, &y, 4);
    distance_of(out, words, &x, &y, 8);
}

// More samples than are taken at once.
fn run_longer_distances(out: &mut Screen)
    ensures { IsErr out.old → out.new ≡ out.old }
{
    let words = "twenty samples, 1 apart, limit";
    let x: [Word; 20] = [0; 20];
    let y: [Word; 20] = [4096; 20];
    distance_of(out, words, &x, &y, 15);
    distance_of(out, words, &x, &y, 16);
    distance_of(out, words, &x, &y, 20);
    distance_of(out, words, &x, &y, 18446744073709551615);
}

// All of it. Whether all was written, unless memory ran out: a write that failed is told, whatever comes behind it.
fn run_all(mut screen: Screen, alloc: Global) -> Result<io::Result<()>, AllocError>
    ensures { IfOk result (λ told. IsErr screen → told ≡ screen) }
{
    let out = &mut screen;
    run_openings(out, alloc)?;
    run_libraries(out);
    run_sheets(out);
    run_walks(out);
    run_distances(out);
    run_longer_distances(out);
    Ok(screen.end())
}

fn main(rt: HostRuntime) -> io::Result<()> {
    run_all(Screen::new(rt.stdout()), rt.alloc())?
}
