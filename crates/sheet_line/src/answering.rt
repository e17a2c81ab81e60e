// The match of a sheet's last trace among the earlier ones.

ghost use Rattle.std.specs.Prelude.{◌≡◌, [], ◌≤◌, length, take, get_or, Ok};
ghost use Rattle.std.proofs.Math.Option.{none};
ghost use Rattle.dstree.specs.Measures.{records_needed};
ghost use Rattle.dstree.specs.Refusals.{first_of};
ghost use Rattle.dstree.specs.Program.{line_of, program_line};
ghost use Rattle.dstree.specs.Sheet.{measures_in};
ghost use Rattle.tables.specs.Tables.{labelled_tables, lent_of};
ghost use Rattle.sheet_blocks.specs.Blocks.{block_at};
ghost use Rattle.sheet_blocks.specs.Traces.{sheet_traces};
ghost use Rattle.sheet_line.specs.Conditions.{program_conditions};
ghost use Rattle.sheet_line.specs.Lines.{line_by};
ghost use Rattle.sheet_line.specs.Stored.{EarlierStored, Roomy, most};

use loading::{Source, load};
use matching::Found;
use opening::put_empty;
use search::stored::Stored;
use segment::Word;
use sheet_judging::contents::head_of;
use sheet_judging::traces::read_trace;

// The match of the last trace among those that the tables hold. `query` is a place for its samples, as words.
fn match_query(
    stored: Stored,
    work: &mut [u64],
    trail: &mut [u16],
    sheet: &[u8],
    last: usize,
    query: &mut [Word],
) -> Found
    requires { EarlierStored stored.control.now stored.samples.now stored.nodes.now stored.links.now work.old sheet.now (length query.old) last
        × (records_needed most ≤ length trail.old) }
    ensures { line_by (Ok result)
        ≡ line_of (measures_in (block_at sheet.now 0)) (take last (sheet_traces sheet.now))
        (get_or (sheet_traces sheet.now) last []) }
{
    read_trace(sheet, last, query);
    let seen = search::searching::search_all(stored, query, work, trail);
    Found {
        trace: seen.trace,
        distance: seen.distance,
        leaves: seen.out as u64,
        traces: seen.traces as u64,
    }
}

// The same with places of its own: for 64 samples, and for as many leaves as 64 traces can have nodes.
fn match_last(stored: Stored, work: &mut [u64], sheet: &[u8], n: usize, last: usize) -> Found
    requires { EarlierStored stored.control.now stored.samples.now stored.nodes.now stored.links.now work.old sheet.now n last }
    ensures { line_by (Ok result)
        ≡ line_of (measures_in (block_at sheet.now 0)) (take last (sheet_traces sheet.now))
        (get_or (sheet_traces sheet.now) last []) }
{
    let mut query: [Word; 64] = [0; 64];
    let mut trail = [0u16; 127];
    match_query(stored, work, &mut trail, sheet, last, &mut query[..n])
}

// A library of the earlier traces, and the match of the last one in it.
fn match_in(
    control: &mut [u16],
    samples: &mut [Word],
    nodes: &mut [i64],
    links: &mut [u16],
    work: &mut [u64],
    labels: &mut [u64],
    sheet: &[u8],
) -> Found
    requires { Roomy (lent_of (labelled_tables control.old samples.old nodes.old links.old work.old labels.old))
        sheet.now }
    ensures { line_by (Ok result) ≡ program_line sheet.now }
{
    let head = head_of(sheet);
    let n = head.n;
    let last = head.count as usize - 1;
    let earlier = last; // so many stand before it
    put_empty(
        control,
        samples,
        nodes,
        links,
        work,
        labels,
        n,
        head.capacity,
        head.leaf,
    );
    load(
        control,
        samples,
        nodes,
        links,
        Source::Sheet,
        sheet,
        n as usize,
        earlier,
    );
    let stored = Stored {
        control,
        samples,
        nodes,
        links,
    };
    match_last(stored, work, sheet, n as usize, last)
}

// The tables: 64 traces of 64 samples, 127 records of 87 places, 64 links, 127 places of search work, 64 labels.
pub fn match_sound(sheet: &[u8]) -> Found
    requires { first_of (program_conditions sheet.now) ≡ none }
    ensures { line_by (Ok result) ≡ program_line sheet.now }
{
    let mut control = [0u16; 5];
    let mut samples: [Word; 4096] = [0; 4096];
    let mut nodes = [0i64; 11049];
    let mut links = [0u16; 64];
    let mut work = [0u64; 127];
    let mut labels = [0u64; 64];
    match_in(
        &mut control,
        &mut samples,
        &mut nodes,
        &mut links,
        &mut work,
        &mut labels,
        sheet,
    )
}
