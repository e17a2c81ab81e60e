// One leaf split by the best candidate that parts it.

ghost use Rattle.std.specs.Prelude.{◌≡◌, suc, ◌*◌, ◌≤◌, length};
ghost use Rattle.std.proofs.Math.Option.{some};
ghost use Rattle.dstree.specs.Measures.{most_nodes};
ghost use Rattle.tables.specs.Layout.{record_places};
ghost use Rattle.tables.specs.Tables.{with_record};
ghost use Rattle.tables.specs.Walk.{stored_in, numbers_of};
ghost use Rattle.leaf_figures.specs.Ends.{ends_of};
ghost use Rattle.insertion_memory.specs.Memory.{tree_tables, split_to, split_node};
ghost use Rattle.split_choice.specs.Choosing.{split_of};
ghost use Rattle.splitting.specs.Leaves.{Side, side_record};
ghost use Rattle.splitting.specs.Splits.{Parts, Splits};

use crate::leaves::write_leaf;
use crate::lists::{leaf_longer, relink};
use candidate::gains::child_ends;
use candidate::marking::{LEFT, RIGHT, mark_sides};
use insertion::heads::become_inner;
use leaf_figures::ends::{Ends, ends_of};
use leaf_figures::stored::StoredLeaf;
use segment::Word;
use split_choice::choice::{Choice, choose};
use tables::places::{FIRST, KIND};
use tables::records::{node_small, record_at};

// The records of the two new leaves: the left one takes the next number, the right one the number behind it.
fn write_sides(nodes: &mut [i64], count: usize, leaf: StoredLeaf, marks: &[u8; 4096], e: Ends)
    requires { (suc (suc count) * record_places ≤ length nodes.old) × (suc count ≤ most_nodes)
        × Side leaf marks.now 1 e × Side leaf marks.now 2 e }
    ensures { nodes.new
        ≡ with_record (with_record nodes.old count (side_record leaf.entry marks.now 1 (ends_of e)))
        (suc count) (side_record leaf.entry marks.now 2 (ends_of e)) }
{
    write_leaf(nodes, count, leaf, marks, LEFT, e);
    write_leaf(nodes, count + 1, leaf, marks, RIGHT, e);
}

// A leaf split by a choice: it becomes inner, its two sides become the next two nodes, and their lists are laid. The sides are marked, and
// the new records written, by the links as they were.
fn split_by(
    nodes: &mut [i64],
    links: &mut [u16],
    samples: &[Word],
    n: usize,
    k: usize,
    count: usize,
    at: usize,
    head: usize,
    e: Ends,
    c: Choice,
)
    requires { Parts nodes.old links.old samples.now n k count at head e c }
    ensures { tree_tables nodes.new links.new (suc (suc count)) ≡ split_to (stored_in samples.now n k)
        (tree_tables nodes.old links.old count) at
        (some (split_of (stored_in samples.now n k) (ends_of e) (numbers_of links.old k head) c)) }
{
    let on = c.trial.on;
    let by_scatter = c.trial.by_scatter;
    let mut marks = [0u8; 4096];
    let leaf = StoredLeaf {
        samples,
        links,
        n,
        k,
        head,
    };
    mark_sides(leaf, on, by_scatter, c.threshold, &mut marks);
    let child = child_ends(e, c.trial.cut);
    let right = count + 1;
    become_inner(
        nodes,
        at,
        by_scatter,
        count,
        right,
        on.first,
        on.last,
        c.threshold,
    );
    write_sides(nodes, count, leaf, &marks, child);
    relink(links, k, head, &marks);
}

// The node at a number, tried: a leaf with more traces than the leaf size splits, if a candidate parts it. The answer is how many nodes
// there are then.
pub fn split_at(
    nodes: &mut [i64],
    links: &mut [u16],
    samples: &[Word],
    n: usize,
    k: usize,
    leaf_size: usize,
    count: usize,
    at: usize,
) -> usize
    requires { Splits nodes.old links.old samples.now n k count at }
    ensures { tree_tables nodes.new links.new result
        ≡ split_node leaf_size (stored_in samples.now n k) (tree_tables nodes.old links.old count) at }
{
    if node_small(nodes, at, KIND) != 0 {
        return count;
    }
    let head = node_small(nodes, at, FIRST);
    let longer = leaf_longer(links, k, head, leaf_size);
    if !longer {
        return count;
    }
    let e = ends_of(record_at(nodes, at));
    match choose(samples, links, n, k, head, e) {
        None => count,
        Some(c) => {
            split_by(nodes, links, samples, n, k, count, at, head, e, c);
            count + 2
        }
    }
}
