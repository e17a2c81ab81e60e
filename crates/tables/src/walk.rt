// Along a leaf's list of traces.
ghost use Rattle.std.specs.Prelude.{◌≡◌, ◌≤◌, ◌<◌, length};
ghost use Rattle.dstree.specs.Measures.{most_traces};
ghost use Rattle.tables.specs.Walk.{Rising, numbers_of, behind_of};

// The number behind t in its list, and k behind the last one, so that a walk goes on while it is below k.
pub fn behind(links: &[u16], k: usize, t: usize) -> usize
    requires { t < length links.now }
    ensures { result ≡ behind_of links.now k t }
{
    let next = crate::numbers::wide(links[t]);
    if next == 0 { k } else { next }
}

// How many numbers the list has that starts at `head`.
pub fn list_size(links: &[u16], k: usize, head: usize) -> usize
    requires { (head < k) × (k ≤ most_traces) × (k ≤ length links.now) × Rising links.now k }
    ensures value { result ≡ length (numbers_of links.now k head) }
    ensures size { result ≤ k }
{
    let mut count: usize = 0;
    let mut t = head;
    while t < k {
        count += 1;
        t = behind(links, k, t);
    }
    count
}
