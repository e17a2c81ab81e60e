// A trace put into tables that refuse nothing: its samples are stored, it joins the tree, and the counts are written last.

ghost use Rattle.std.specs.Prelude.{◌≡◌, List, ℕ};
ghost use Rattle.segment.specs.Stored.{samples_of};
ghost use Rattle.tables.specs.Tables.{tables};
ghost use Rattle.insertion_memory.specs.Memory.{added_to};
ghost use Rattle.adding.specs.Putting.{Takes};

use segment::{Sample, Word};
use tables::control::field;
use tables::given::words_of;
use tables::places::TRACE_COUNT;

// Search work is not lent: it stays as it was, whatever it holds.
pub fn put(
    control: &mut [u16],
    samples: &mut [Word],
    nodes: &mut [i64],
    links: &mut [u16],
    trace: &[Word],
)
    requires { Takes control.old samples.old nodes.old links.old (samples_of trace.now) }
    ensures { (work : List ℕ) →
        tables control.new samples.new nodes.new links.new work
        ≡ added_to (tables control.old samples.old nodes.old links.old work)
        (samples_of trace.now) }
{
    let k = usize::from(field(control, TRACE_COUNT));
    let n = trace.len();
    let at = k * n;
    tables::loops::copy_trace(samples, at, trace);
    let more = crate::inserting::insert(control, samples, nodes, links, trace);
    let next = k + 1;
    crate::inserting::write_counts(control, next, more);
}

// A trace of plain samples: they are made words first.
pub fn put_given(
    control: &mut [u16],
    samples: &mut [Word],
    nodes: &mut [i64],
    links: &mut [u16],
    trace: &[Sample],
)
    requires { Takes control.old samples.old nodes.old links.old trace.now }
    ensures { (work : List ℕ) →
        tables control.new samples.new nodes.new links.new work
        ≡ added_to (tables control.old samples.old nodes.old links.old work)
        trace.now }
{
    let mut words: [Word; 256] = [0; 256];
    words_of(trace, &mut words);
    let n = trace.len();
    put(control, samples, nodes, links, &words[..n]);
}
