// A leaf's list of traces: how long it is, and the two sides of it laid as lists of their own. Each trace has a mark, and a side is the
// traces with one mark.

ghost use Rattle.std.specs.Prelude.{◌≡◌, ℕ, ◌≤◌, ◌<◌, length, get_or, take, ltb};
ghost use Rattle.dstree.specs.Measures.{most_traces};
ghost use Rattle.tables.specs.Walk.{Rising, numbers_of};
ghost use Rattle.leaf_figures.specs.Sides.{marked};
ghost use Rattle.insertion_memory.specs.Links.{linked};

use candidate::marking::{LEFT, RIGHT};
use tables::walk::behind;

// Whether the list that starts at `head` has more traces than the leaf size. As many as the leaf size are not more.
pub fn leaf_longer(links: &[u16], k: usize, head: usize, leaf_size: usize) -> bool
    requires { (head < k) × (k ≤ length links.now) × Rising links.now k }
    ensures { result ≡ ltb leaf_size (length (numbers_of links.now k head)) }
{
    let mut seen: usize = 0;
    let mut t = head;
    while t < k {
        seen += 1;
        t = behind(links, k, t);
    }
    leaf_size < seen
}

// The leaf's traces with a mark, in the order of its list. The answer is how many there are; places behind them are not looked at.
pub fn list_side(
    links: &[u16],
    k: usize,
    head: usize,
    marks: &[u8; 4096],
    mark: u8,
    order: &mut [u16; 4096],
) -> usize
    requires { (head < k) × (k ≤ most_traces) × (k ≤ length links.now) × Rising links.now k
        × (length marks.now ≡ most_traces) × (length order.old ≡ most_traces) }
    ensures order_after { take result order.new ≡ marked marks.now mark (numbers_of links.now k head) }
    ensures few { result ≤ most_traces }
    ensures size { length order.new ≡ most_traces }
{
    let mut count: usize = 0;
    let mut t = head;
    while t < k {
        order[count] = t as u16;
        count += usize::from(marks[t] == mark);
        t = behind(links, k, t);
    }
    count
}

// The first trace with a mark, and k if there is none.
pub fn first_on_side(links: &[u16], k: usize, head: usize, marks: &[u8; 4096], mark: u8) -> usize
    requires { (head < k) × (k ≤ most_traces) × (k ≤ length links.now) × Rising links.now k × (length marks.now ≡ most_traces) }
    ensures value { result ≡ get_or (marked marks.now mark (numbers_of links.now k head)) 0 k }
    ensures inside { result ≤ k }
{
    let mut t = head;
    while t < k {
        if marks[t] == mark {
            return t;
        }
        t = behind(links, k, t);
    }
    k
}

// Each trace of a list linked to the next, and the last to 0. A link that stayed as it was does not meet this.
pub fn lay(links: &mut [u16], order: &[u16])
    requires { (0 < length order.now) × ((i : ℕ) → i < length order.now → get_or order.now i 0 < length links.old) }
    ensures { links.new ≡ linked order.now links.old }
{
    let last = order.len() - 1;
    for i in 0..last {
        links[usize::from(order[i])] = order[i + 1];
    }
    links[usize::from(order[last])] = 0;
}

// The two sides of a leaf laid as lists of their own. Both are listed before a link is written.
pub fn relink(links: &mut [u16], k: usize, head: usize, marks: &[u8; 4096])
    requires { (head < k) × (k ≤ most_traces) × (k ≤ length links.old) × Rising links.old k × (length marks.now ≡ most_traces)
        × (0 < length (marked marks.now 1 (numbers_of links.old k head)))
        × (0 < length (marked marks.now 2 (numbers_of links.old k head))) }
    ensures { links.new ≡ linked (marked marks.now 2 (numbers_of links.old k head))
        (linked (marked marks.now 1 (numbers_of links.old k head)) links.old) }
{
    let mut left = [0u16; 4096];
    let mut right = [0u16; 4096];
    let many_left = list_side(links, k, head, marks, LEFT, &mut left);
    let many_right = list_side(links, k, head, marks, RIGHT, &mut right);
    lay(links, &left[..many_left]);
    lay(links, &right[..many_right]);
}
