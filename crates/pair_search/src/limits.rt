// How far a search goes: to the nearest trace so far, of both libraries. Without a trace nothing is past it.
ghost use Rattle.std.specs.Prelude.{ℕ, ◌≤◌, ◌≡◌, ◌||◌, length};
ghost use Rattle.dstree.specs.Matching.{is_above};
ghost use Rattle.dstree.specs.KNearest.{kth};
ghost use Rattle.reading.specs.Listed.{nears_in};
ghost use Rattle.pair_search.specs.Limits.{past};

// The nearest trace's distance in a list of one, if there is a trace.
pub fn limit_in(list: &[u64], listed: usize) -> Option<u64>
    requires { (listed ≤ 1) × (2 ≤ length list.now) }
    ensures { (bound : ℕ) → past result bound ≡ is_above bound (kth 1 (nears_in listed list.now)) }
{
    reading::list::kth_distance(list, listed, 1)
}

// The nearer of two limits: past it is what is past one of them. A program that takes the farther does not meet this.
pub fn nearer_of(a: Option<u64>, b: Option<u64>) -> Option<u64>
    ensures { (bound : ℕ) → past result bound ≡ (past a bound || past b bound) }
{
    match (a, b) {
        (Some(first), Some(second)) => Some(first.min(second)),
        (Some(_), None) => a,
        (None, _) => b,
    }
}
