// The joined leaf split, then the new ones, lowest number first.

ghost use Rattle.std.specs.Prelude.{◌≡◌, ◌*◌, ◌<◌};
ghost use Rattle.tables.specs.Walk.{stored_in};
ghost use Rattle.insertion_memory.specs.Memory.{tree_tables, split_on, split_all_of};
ghost use Rattle.splitting.specs.Represented.{Represented};

use segment::Word;

// Every node from `from` on is tried, in order. New leaves come last, so that this takes them too. The answer is how many nodes there are
// then.
pub fn split_pass(
    nodes: &mut [i64],
    links: &mut [u16],
    samples: &[Word],
    n: usize,
    k: usize,
    leaf_size: usize,
    many: usize,
    from: usize,
) -> usize
    requires { Represented nodes.old links.old samples.now n k many }
    ensures { tree_tables nodes.new links.new result
        ≡ split_on (2 * k) leaf_size (stored_in samples.now n k)
        (tree_tables nodes.old links.old many) from }
{
    let mut count = many;
    let mut at = from;
    // No `for` over a range: each split moves the end of the walk.
    while at < count {
        count = crate::splits::split_at(nodes, links, samples, n, k, leaf_size, count, at);
        at += 1;
    }
    count
}

// The joined leaf, then the new ones.
pub fn split_all(
    nodes: &mut [i64],
    links: &mut [u16],
    samples: &[Word],
    n: usize,
    k: usize,
    leaf_size: usize,
    count: usize,
    at: usize,
) -> usize
    requires { Represented nodes.old links.old samples.now n k count × (at < count) }
    ensures { tree_tables nodes.new links.new result
        ≡ split_all_of leaf_size (stored_in samples.now n k) (tree_tables nodes.old links.old count) at }
{
    let more = crate::splits::split_at(nodes, links, samples, n, k, leaf_size, count, at);
    split_pass(nodes, links, samples, n, k, leaf_size, more, count)
}
