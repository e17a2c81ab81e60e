// The check before tables are trusted: whether every node's recorded least and greatest sums and scatters are those of the traces below
// it.
#![tactic(auto)]

pub mod sizes; // how many traces are below each node
pub mod order; // the traces below every node, in one array
pub mod judging; // what the check refuses

ghost use Rattle.std.specs.Prelude.{◌≡◌, [], T};
ghost use Rattle.dstree.specs.Book.{checking};
ghost use Rattle.dstree.specs.Checking.{is_exact};
ghost use Rattle.tables.specs.Tables.{tables};
ghost use Rattle.tables.specs.Lent.{tables_before};
ghost use Rattle.tables.specs.View.{tree_in, traces_in, well_formed};
ghost use Rattle.tables.specs.Holds.{Long};
ghost use Rattle.calls.specs.Outcome.{outcome};
ghost use Rattle.calls.specs.Effects.{outcome_on};
ghost use Rattle.checking.specs.Answered.{answer_by};

use segment::Word;
use tables::Refusal;
use tables::control::field;
use tables::lent::Lent;
use tables::numbers::wide;
use tables::places::{N, NODE_COUNT, TRACE_COUNT};

// Of tables that are well formed and long enough. Each sample is taken once for its leaf, and once more for each node on the way up in
// which its segment of the parent is cut: 16 times at most, as a record has 16 segments at most. Lists and places are the call's own.
pub fn is_exact(control: &[u16], samples: &[Word], nodes: &[i64], links: &[u16]) -> bool
    requires { T (well_formed (tables control.now samples.now nodes.now links.now []))
        × Long (tables control.now samples.now nodes.now links.now []) }
    ensures { result ≡ is_exact (traces_in (tables control.now samples.now nodes.now
        links.now []))
        (tree_in (tables control.now samples.now nodes.now links.now [])) }
{
    let n = wide(field(control, N));
    let k = wide(field(control, TRACE_COUNT));
    let m = wide(field(control, NODE_COUNT));
    let mut sizes = [0u16; 8192];
    let mut starts = [0u16; 8192];
    let mut order = [0u16; 4096];
    sizes::fill_sizes(nodes, links, k, m, &mut sizes);
    order::lay_out(nodes, links, k, m, &sizes, &mut starts, &mut order);
    figures_below::nodes::all_exact(samples, nodes, n, m, &sizes, &starts, &order)
}

// Checks tables that nobody vouches for. All five are lent only to be read and to be long enough: they stay as they were, search work
// too.
//
// Two wrong programs that the contract rules out: one that accepts a range within which the traces below lie, though it is too wide, and
// one that looks at leaves only.
pub fn check_tables(
    control: &[u16],
    samples: &[Word],
    nodes: &[i64],
    links: &[u16],
    work: &[u64],
    labels: &[u64],
) -> Result<(), Refusal>
    ensures { outcome (answer_by result)
        (tables_before control samples nodes links work labels) []
        ≡ outcome_on checking
        (tables_before control samples nodes links work labels) }
{
    let lent = Lent {
        control,
        samples,
        nodes,
        links,
        work,
        labels,
    };
    judging::judge(lent)
}
