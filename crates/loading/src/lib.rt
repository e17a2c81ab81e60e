// The traces that bytes hold, a sheet's or a recording's, added in order to tables that refuse nothing of them.
#![tactic(auto)]

ghost use Rattle.std.specs.Prelude.{◌≡◌, ℕ, length, get_or, take};
ghost use mathlib.Core.List.{List, [], foldl};
ghost use Rattle.segment.specs.Stored.{samples_of};
ghost use Rattle.tables.specs.Tables.{tables};
ghost use Rattle.insertion_memory.specs.Memory.{added_to};
ghost use Rattle.loading.specs.Loads.{traces_by, HoldsTrace, Next, Loads};

use adding::putting::put;
use segment::Word;

// What the bytes are.
#[derive(Clone, Copy)]
pub enum Source {
    Sheet,
    Recording,
}

// The trace with this number.
fn read_trace(source: Source, bytes: &[u8], number: usize, trace: &mut [Word])
    requires { HoldsTrace source (length trace.old) bytes.now number }
    ensures { samples_of trace.new ≡ get_or (traces_by source (length trace.old) bytes.now) number [] }
{
    match source {
        Source::Sheet => sheet_judging::traces::read_trace(bytes, number, trace),
        Source::Recording => recording::samples::read_trace(bytes, number, trace),
    }
}

// It, into tables that refuse nothing of it. `trace` is a place for its samples' words.
fn put_next(
    control: &mut [u16],
    samples: &mut [Word],
    nodes: &mut [i64],
    links: &mut [u16],
    source: Source,
    bytes: &[u8],
    number: usize,
    trace: &mut [Word],
)
    requires { Next source control.old samples.old nodes.old links.old bytes.now (length trace.old) number }
    ensures { (work : List ℕ) → tables control.new samples.new nodes.new links.new work
        ≡ added_to (tables control.old samples.old nodes.old links.old work)
        (get_or (traces_by source (length trace.old) bytes.now) number []) }
{
    read_trace(source, bytes, number, trace);
    put(control, samples, nodes, links, trace);
}

// The same with a place of its own: a trace has 256 samples at most.
fn put_one(
    control: &mut [u16],
    samples: &mut [Word],
    nodes: &mut [i64],
    links: &mut [u16],
    source: Source,
    bytes: &[u8],
    n: usize,
    number: usize,
)
    requires { Next source control.old samples.old nodes.old links.old bytes.now n number }
    ensures { (work : List ℕ) → tables control.new samples.new nodes.new links.new work
        ≡ added_to (tables control.old samples.old nodes.old links.old work)
        (get_or (traces_by source n bytes.now) number []) }
{
    let mut trace: [Word; 256] = [0; 256];
    put_next(
        control,
        samples,
        nodes,
        links,
        source,
        bytes,
        number,
        &mut trace[..n],
    );
}

// The first `count` of them. Search work is not lent: adding leaves it as it was.
pub fn load(
    control: &mut [u16],
    samples: &mut [Word],
    nodes: &mut [i64],
    links: &mut [u16],
    source: Source,
    bytes: &[u8],
    n: usize,
    count: usize,
)
    requires { Loads source control.old samples.old nodes.old links.old bytes.now n count }
    ensures { (work : List ℕ) → tables control.new samples.new nodes.new links.new work
        ≡ foldl added_to (tables control.old samples.old nodes.old links.old work)
        (take count (traces_by source n bytes.now)) }
{
    for number in 0..count {
        put_one(control, samples, nodes, links, source, bytes, n, number);
    }
}
