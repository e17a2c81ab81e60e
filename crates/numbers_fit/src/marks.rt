// Numbers met, in a table of their own: a place for each number, 1 once it was met. There are twice as many numbers of nodes as of traces.

ghost use Rattle.std.specs.Prelude.{◌≡◌, [], ◌∷◌, ◌+◌, ◌≤◌, ◌<◌, length};
ghost use Rattle.tables.specs.Layout.{node_places};
ghost use Rattle.numbers_fit.specs.Marks.{MarkedOrTwice};
ghost use Rattle.numbers_fit.specs.Tests.{marked_once};

use tables::numbers::wide;

// Marks the number of a node or of a trace, if it was not met before.
pub fn mark<const N: usize>(marks: &mut [u8; N], number: usize) -> bool
    requires { number < N }
    ensures { MarkedOrTwice marks.old marks.new (number ∷ []) result }
{
    if 0 < marks[number] {
        return false;
    }
    marks[number] = 1;
    true
}

// So many numbers from `first` on are each marked. They are counted, many at a time, and none of them decides alone.
// `filter` and `count` were tried and took 9 times as long, `all` 4 times.
pub fn all_marked(marks: &[u8], first: usize, count: usize) -> bool
    requires { (first + count ≤ length marks.now) × (count ≤ node_places) }
    ensures { result ≡ marked_once marks.now first count }
{
    let mut marked: u16 = 0;
    for i in 0..count {
        marked += u16::from(marks[first + i] == 1);
    }
    wide(marked) == count
}
