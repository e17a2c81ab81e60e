// Whether all traces of a list are the same, word by word. Words that differ can stand for the same sample: so only a yes says something.

ghost use Rattle.std.specs.Prelude.{◌≡◌, true, ℕ, get_or};
ghost use Rattle.integer.specs.Lists.{In};
ghost use Rattle.leaf_figures.specs.Rows.{trace_of};

use crate::listed::Listed;
use tables::runs::trace_at;

// Yes says that all of the list's traces are its first one. Of fewer than two it says no, which promises nothing.
pub fn all_same(traces: Listed) -> bool
    ensures { result ≡ true → (t : ℕ) → In t traces.entry.list.now
        → trace_of traces.entry t ≡ trace_of traces.entry (get_or traces.entry.list.now 0 0) }
{
    let list = traces.list;
    if list.len() < 2 {
        return false;
    }
    let first = trace_at(traces.samples, traces.n, usize::from(list[0]));
    for &number in list {
        let other = trace_at(traces.samples, traces.n, usize::from(number));
        if other != first {
            return false;
        }
    }
    true
}
