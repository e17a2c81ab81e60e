// A leaf's list of traces by the links: its last one, and how a new one joins it.

ghost use Rattle.std.specs.Prelude.{◌≡◌, ◌≤◌, ◌<◌, length};
ghost use Rattle.integer.specs.Words.{last_of};
ghost use Rattle.dstree.specs.Measures.{most_traces};
ghost use Rattle.tables.specs.Walk.{Rising, numbers_of};
ghost use Rattle.insertion_memory.specs.Links.{joined};

use tables::walk::behind;

// The last trace of the list that starts at `head`, k traces being stored.
pub fn last_of(links: &[u16], k: usize, head: usize) -> usize
    requires { (head < k) × (k ≤ length links.now) × Rising links.now k }
    ensures { result ≡ last_of (numbers_of links.now k head) }
{
    let mut t = head;
    let mut next = behind(links, k, t);
    while next < k {
        t = next;
        next = behind(links, k, t);
    }
    t
}

// Trace k joins the list that starts at `head`: behind its last, and as the new end. A link that the head gets, or an old link that stays
// at k, does not meet this.
pub fn join(links: &mut [u16], k: usize, head: usize)
    requires { (head < k) × (k < length links.old) × (k ≤ most_traces) × Rising links.old k }
    ensures { links.new ≡ joined links.old (numbers_of links.old k head) k }
{
    let last = last_of(links, k, head);
    links[last] = k as u16;
    links[k] = 0;
}
