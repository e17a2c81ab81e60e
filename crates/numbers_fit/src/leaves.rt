// Every trace number is in one leaf, and the numbers of a leaf rise. No leaf's list is walked: if every link rises, and every trace is
// named once, by a link or as a leaf's first, then going back from a trace by what names it ends at one leaf, whose list it is in.

ghost use Rattle.std.specs.Prelude.{MatchBool, ◌≡◌, true, false, ℕ, ◌+◌, ◌≤◌, ◌<◌, length, get_or};
ghost use Rattle.dstree.specs.Measures.{most_traces, most_nodes};
ghost use Rattle.records_fit.specs.Fits.{AllFit, HeadFits};
ghost use Rattle.numbers_fit.specs.Marks.{Named, LinkRises, LinksRise, LinksMarked, LinksName};
ghost use Rattle.numbers_fit.specs.Tests.{children_once, first_at, firsts_of, leaves_hold};

use tables::kinds::is_leaf;
use tables::numbers::wide;
use tables::places::FIRST;
use tables::records::node_small;

// Marks the first trace number of node j, if it is a leaf. It has to be the number of one of k traces.
pub fn mark_first(nodes: &[i64], j: usize, k: usize, marks: &mut [u8; 4096]) -> bool
    requires { HeadFits j nodes.now × (k ≤ most_traces) }
    ensures { Named k marks.old marks.new (first_at nodes.now j) result }
{
    if !is_leaf(nodes, j) {
        return true;
    }
    let first = node_small(nodes, j, FIRST);
    if k <= first {
        return false;
    }
    crate::marks::mark(marks, first)
}

// Marks the first trace number of every leaf.
fn mark_firsts(nodes: &[i64], m: usize, k: usize, marks: &mut [u8; 4096]) -> bool
    requires { AllFit m nodes.now × (k ≤ most_traces) }
    ensures { Named k marks.old marks.new (firsts_of nodes.now m) result }
{
    for j in 0..m {
        if !mark_first(nodes, j, k, marks) {
            return false;
        }
    }
    true
}

// ---- links. They are counted and marked without a branch by their values, which no processor could guess

// The link of trace i, of k, is 0 or the number of a later trace.
fn rises(link: u16, i: u16, k: u16) -> bool
    ensures { MatchBool result (LinkRises k i link) (LinkRises k i link → ⊥) }
{
    link == 0 || (i < link && link < k)
}

// Each of k links is 0 behind the last of a leaf, else the number of a later trace, and as many end a list as there are leaves, of m nodes.
// A chain of `all`, `filter` and `count` was tried: it took 8 times as long as this loop.
fn links_rise(links: &[u16], k: usize, m: usize) -> bool
    requires { (k ≤ length links.now) × (k ≤ most_traces) × (m ≤ most_nodes) }
    ensures { (result ≡ true → LinksRise links.now k m) × (result ≡ false → LinksRise links.now k m → ⊥) }
{
    let mut fit: u16 = 0;
    let mut ends: u16 = 0;
    for i in 0..k {
        let link = links[i];
        fit += u16::from(rises(link, i as u16, k as u16));
        ends += u16::from(link == 0);
    }
    if wide(fit) != k {
        return false;
    }
    2 * wide(ends) == m + 1
}

// Marks k links, and 0 if one of them ends a list.
fn mark_links(links: &[u16], k: usize, marks: &mut [u8; 4096])
    requires { (k ≤ length links.now) × ((i : ℕ) → i < k → get_or links.now i 0 < most_traces) }
    ensures { LinksMarked links.now k marks.old marks.new }
{
    for i in 0..k {
        marks[wide(links[i])] = 1;
    }
}

// The links of k traces rise, and with what is marked before they name every trace. Trace 0 is behind no other, so that it has to be marked
// before.
pub fn links_name(links: &[u16], k: usize, m: usize, marks: &mut [u8; 4096]) -> bool
    requires { (k ≤ length links.now) × (k ≤ most_traces) × (m ≤ most_nodes) }
    ensures { (result ≡ true → LinksName links.now k m marks.old)
        × (result ≡ false → LinksName links.now k m marks.old → ⊥) }
{
    if !links_rise(links, k, m) {
        return false;
    }
    if marks[0] != 1 {
        return false;
    }
    mark_links(links, k, marks);
    crate::marks::all_marked(marks, 0, k)
}

// Of m nodes that are each a child once but for node 0, the leaves are (m + 1) / 2.
pub fn leaves_hold(nodes: &[i64], m: usize, links: &[u16], k: usize) -> bool
    requires { AllFit m nodes.now × (children_once m nodes.now ≡ true) × (k ≤ length links.now) × (k ≤ most_traces) }
    ensures { result ≡ leaves_hold m nodes.now k links.now }
{
    if m == 0 {
        return k == 0;
    }
    let mut marks = [0u8; 4096];
    if !mark_firsts(nodes, m, k, &mut marks) {
        return false;
    }
    links_name(links, k, m, &mut marks)
}
