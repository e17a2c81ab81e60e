// A stored trace joins the tree: the first one makes leaf 0, a later one goes down, joins a leaf, and leaves above the leaf size split.
// Its samples stand behind those of the traces before it.

ghost use Rattle.std.specs.Prelude.{◌≡◌, [], ◌≤◌, ◌<◌, length, set};
ghost use Rattle.segment.specs.Stored.{samples_of};
ghost use Rattle.tables.specs.Layout.{control_fields, trace_count_place, node_count_place};
ghost use Rattle.tables.specs.Tables as t;
ghost use Rattle.tables.specs.Tables.{tables};
ghost use Rattle.tables.specs.View.{small_most, trace_in};
ghost use Rattle.insertion_memory.specs.Memory.{tree_tables, tree_tables_after};
ghost use Rattle.adding.specs.Putting.{Takes};

use segment::Word;
use tables::control::field;
use tables::places::{FIRST, LEAF_SIZE, NODE_COUNT, TRACE_COUNT};

// A later trace. The answer is how many nodes there are then.
pub fn insert_more(
    control: &[u16],
    samples: &[Word],
    nodes: &mut [i64],
    links: &mut [u16],
    trace: &[Word],
) -> usize
    requires { Takes control.now samples.now nodes.old links.old (samples_of trace.now)
        × (trace_in samples.now (length trace.now) (t.field control.now trace_count_place) ≡ samples_of trace.now)
        × (0 < t.field control.now node_count_place) }
    ensures { tree_tables nodes.new links.new result ≡ tree_tables_after
        (tables control.now samples.now nodes.old links.old [])
        (samples_of trace.now) }
{
    let k = usize::from(field(control, TRACE_COUNT));
    let leaf_size = usize::from(field(control, LEAF_SIZE));
    let count = usize::from(field(control, NODE_COUNT));
    let leaf = insertion::way::descend(nodes, count, trace);
    let head = tables::records::node_small(nodes, leaf, FIRST);
    insertion::lists::join(links, k, head);
    let n = trace.len();
    let more = k + 1;
    splitting::pass::split_all(nodes, links, samples, n, more, leaf_size, count, leaf)
}

// Any trace: with no node yet, it makes leaf 0.
pub fn insert(
    control: &[u16],
    samples: &[Word],
    nodes: &mut [i64],
    links: &mut [u16],
    trace: &[Word],
) -> usize
    requires { Takes control.now samples.now nodes.old links.old (samples_of trace.now)
        × (trace_in samples.now (length trace.now) (t.field control.now trace_count_place) ≡ samples_of trace.now) }
    ensures { tree_tables nodes.new links.new result ≡ tree_tables_after
        (tables control.now samples.now nodes.old links.old [])
        (samples_of trace.now) }
{
    if field(control, NODE_COUNT) == 0 {
        insertion::heads::first_leaf(nodes, links, trace);
        return 1;
    }
    insert_more(control, samples, nodes, links, trace)
}

// The counts of traces and nodes in the control record.
pub fn write_counts(control: &mut [u16], traces: usize, nodes: usize)
    requires { (control_fields ≤ length control.old) × (traces ≤ small_most) × (nodes ≤ small_most) }
    ensures { control.new ≡ set (set control.old trace_count_place traces) node_count_place nodes }
{
    control[TRACE_COUNT] = traces as u16;
    control[NODE_COUNT] = nodes as u16;
}
