// Opening a library in lent tables.
#![tactic(auto)]

ghost use Rattle.std.specs.Prelude.{◌≡◌, [], ◌∷◌, ◌≤◌, length, drop};
ghost use Rattle.dstree.specs.Measures.{measures};
ghost use Rattle.dstree.specs.Book.{opening};
ghost use Rattle.tables.specs.Layout.{control_fields};
ghost use Rattle.tables.specs.Tables.{labelled_tables, lent_of};
ghost use Rattle.tables.specs.Lent.{tables_after, tables_before_all};
ghost use Rattle.tables.specs.Answers.{opened};
ghost use Rattle.tables.specs.Judge.{LongEnough};
ghost use Rattle.calls.specs.Outcome.{outcome};
ghost use Rattle.calls.specs.Effects.{outcome_on};
ghost use Rattle.opening.specs.Opened.{answer_by};

use segment::Word;
use tables::control::{judge_opening, records_needed, samples_needed};
use tables::lent::Lent;
use tables::loops::fill_first;
use tables::places::{CAPACITY, LEAF_SIZE, N, NODE_COUNT, RECORD_PLACES, TRACE_COUNT};
use tables::{Measures, Refusal};

// The control record of an empty library: its measures, and no trace and no node. Places behind its fields stay.
fn write_control(control: &mut [u16], n: u16, capacity: u16, leaf_size: u16)
    requires { control_fields ≤ length control.old }
    ensures { control.new ≡ n ∷ capacity ∷ leaf_size ∷ 0 ∷ 0 ∷ drop control_fields control.old }
{
    control[N] = n;
    control[CAPACITY] = capacity;
    control[LEAF_SIZE] = leaf_size;
    control[TRACE_COUNT] = 0;
    control[NODE_COUNT] = 0;
}

// The tables of an empty library with these measures, for tables that refuse nothing of them: the needed parts are zeroed, and the control
// record is written last. Sheet reading, which has its own refusals, begins with it too.
pub fn put_empty(
    control: &mut [u16],
    samples: &mut [Word],
    nodes: &mut [i64],
    links: &mut [u16],
    work: &mut [u64],
    labels: &mut [u64],
    n: u64,
    capacity: u64,
    leaf_size: u64,
)
    requires { LongEnough (lent_of (labelled_tables control.old samples.old nodes.old links.old work.old labels.old))
        (measures n capacity leaf_size) }
    ensures { tables_after control samples nodes links work labels
        ≡ opened
        (tables_before_all control samples nodes links work labels)
        (measures n capacity leaf_size) }
{
    let records = records_needed(capacity);
    fill_first(samples, samples_needed(n, capacity), 0);
    fill_first(nodes, records * RECORD_PLACES, 0);
    fill_first(links, capacity as usize, 0);
    fill_first(work, records, 0);
    fill_first(labels, capacity as usize, 0);
    write_control(control, n as u16, capacity as u16, leaf_size as u16);
}

// Opens an empty library with these measures. Every refusal is decided before anything is written. The measures come at full width, so that
// none wraps into its range: 65,792 for n is refused, though its low 16 bits are 256.
//
// Two wrong programs that the contract rules out: one that zeroes each table whole (places behind the needed ones change), and one that
// zeroes the samples before it looks at the length of the other tables (a refused call then leaves them changed).
pub fn open(
    control: &mut [u16],
    samples: &mut [Word],
    nodes: &mut [i64],
    links: &mut [u16],
    work: &mut [u64],
    labels: &mut [u64],
    n: u64,
    capacity: u64,
    leaf_size: u64,
) -> Result<(), Refusal>
    ensures { outcome (answer_by result)
        (tables_after control samples nodes links work labels)
        []
        ≡ outcome_on (opening (measures n capacity leaf_size))
        (tables_before_all control samples nodes links work labels) }
{
    let lent = Lent {
        control,
        samples,
        nodes,
        links,
        work,
        labels,
    };
    let measures = Measures {
        n,
        capacity,
        leaf_size,
    };
    judge_opening(lent.lengths(), measures)?;
    put_empty(
        control, samples, nodes, links, work, labels, n, capacity, leaf_size,
    );
    Ok(())
}
