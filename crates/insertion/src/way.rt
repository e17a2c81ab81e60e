// The way down by the tests, and the widening of the nodes that are met.

ghost use Rattle.std.specs.Prelude.{◌≡◌, ◌≤◌, eqb, length, MatchOption};
ghost use Rattle.std.proofs.Math.Option.{none, some};
ghost use Rattle.integer.specs.Words.{last_of};
ghost use Rattle.segment.specs.Stored.{samples_of};
ghost use Rattle.dstree.specs.Node.{sends_left};
ghost use Rattle.tables.specs.Layout.{kind_place, record_places};
ghost use Rattle.tables.specs.Kinds.{number_of};
ghost use Rattle.tables.specs.View.{small_at, test_in};
ghost use Rattle.insertion_memory.specs.Memory.{widened_on};
ghost use Rattle.insertion.specs.Way.{figure_in, next_in, way_in, TestReadable, Descendable};

use crate::widening::widen_record;
use prefixes::Summed;
use segment::Word;
use tables::kinds::{Kind, kind_at};
use tables::places::{FIRST, RIGHT, RUN_FIRST, RUN_LAST, THRESHOLD};
use tables::records::{record_at, record_end, record_start, small_at, value_at};
use tables::runs::is_left;

// Whether a record is of a kind.
fn is_kind(record: &[i64], kind: Kind) -> bool
    requires { length «record».now ≡ record_places }
    ensures { result ≡ eqb (small_at «record».now kind_place) (number_of kind) }
{
    kind_at(record) == Some(kind)
}

// Whether a trace goes left at an inner node's record.
pub fn goes_left(record: &[i64], trace: &Summed) -> bool
    requires { TestReadable «record».now (length trace.now.trace.now) }
    ensures { result ≡ sends_left (test_in «record».now (figure_in «record».now)) (samples_of trace.now.trace.now) }
{
    let by_scatter = is_kind(record, Kind::ByScatter);
    let first = small_at(record, RUN_FIRST);
    let last = small_at(record, RUN_LAST);
    let own = trace.figures_on(first, last);
    let threshold = value_at(record, THRESHOLD);
    is_left(own.sum, own.scatter, by_scatter, threshold)
}

// The child that a trace goes to from a record, none at a leaf.
pub fn next_of(record: &[i64], trace: &Summed) -> Option<usize>
    requires { (length «record».now ≡ record_places) × (small_at «record».now kind_place ≤ 2)
        × (1 ≤ small_at «record».now kind_place → TestReadable «record».now (length trace.now.trace.now)) }
    ensures { MatchOption result (next_in «record».now (samples_of trace.now.trace.now) ≡ none)
        (λ child. next_in «record».now (samples_of trace.now.trace.now) ≡ some child) }
{
    if is_kind(record, Kind::Leaf) {
        return None;
    }
    let left = small_at(record, FIRST);
    let right = small_at(record, RIGHT);
    let goes = goes_left(record, trace);
    Some(if goes { left } else { right })
}

// Down from node 0 by the tests, with the trace's sums over its first samples.
fn descend_by(nodes: &mut [i64], count: usize, trace: &Summed) -> usize
    requires { Descendable nodes.old count (length trace.now.trace.now) }
    ensures value { result ≡ last_of (way_in nodes.old count (samples_of trace.now.trace.now)) }
    ensures widened { nodes.new
        ≡ widened_on (samples_of trace.now.trace.now) nodes.old
        (way_in nodes.old count (samples_of trace.now.trace.now)) }
{
    let mut at: usize = 0;
    loop {
        let next = next_of(record_at(nodes, at), trace);
        let a = record_start(at);
        let e = record_end(at);
        widen_record(&mut nodes[a..e], trace);
        let Some(child) = next else {
            return at;
        };
        at = child;
    }
}

// Down from node 0 by the tests, widening every node met, the leaf too. The answer is the leaf's number. The trace's samples are looked at
// once, whatever the number of nodes.
pub fn descend(nodes: &mut [i64], count: usize, trace: &[Word]) -> usize
    requires { Descendable nodes.old count (length trace.now) }
    ensures value { result ≡ last_of (way_in nodes.old count (samples_of trace.now)) }
    ensures widened { nodes.new
        ≡ widened_on (samples_of trace.now) nodes.old
        (way_in nodes.old count (samples_of trace.now)) }
{
    let mut sums = [0; 257];
    let mut squares = [0; 257];
    let summed = Summed::of(trace, &mut sums, &mut squares);
    descend_by(nodes, count, &summed)
}
