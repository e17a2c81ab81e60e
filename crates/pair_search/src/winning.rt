// Which of two libraries has the nearest trace of all.
ghost use Rattle.std.specs.Prelude.{◌≡◌, not, ◌&&◌, ◌||◌, [], ◌∷◌, ◌≤◌, length, eqb, ltb};
ghost use Rattle.dstree.specs.KNearest.{kth};
ghost use Rattle.dstree.specs.Pair.{winner_of};
ghost use Rattle.reading.specs.Listed.{nears_in};
ghost use Rattle.pair_search.specs.Winning.{winner_by};

use crate::turns::Whose;

// The library of the nearest trace, the trace's number and its distance.
#[derive(Clone, Copy, PartialEq, Eq)]
pub struct Won {
    pub library: Whose,
    pub trace: u64,
    pub distance: u64,
}

// The bench's wins if it is the nearer, or the only one. At an equal distance it does not.
fn bench_wins(listed: usize, distance: u64, bench_listed: usize, bench_distance: u64) -> bool
    ensures { result ≡ (not (eqb bench_listed 0) && (eqb listed 0 || ltb bench_distance distance)) }
{
    if bench_listed == 0 {
        return false;
    }
    if listed == 0 {
        return true;
    }
    bench_distance < distance
}

// The winner of the traces in two lists of one. Where nothing is listed the list has its zeros, which are then the answer, as the
// definition has it.
pub fn winner(list: &[u64], listed: usize, bench_list: &[u64], bench_listed: usize) -> Won
    requires listed_bound { (listed ≤ 1) × (2 ≤ length list.now) × (listed ≡ 0 → list.now ≡ 0 ∷ 0 ∷ []) }
    requires bench { (bench_listed ≤ 1) × (2 ≤ length bench_list.now) }
    ensures { winner_by result ≡ winner_of (kth 1 (nears_in listed list.now))
        (kth 1 (nears_in bench_listed bench_list.now)) }
{
    let distance = list[1];
    let bench_distance = bench_list[1];
    if bench_wins(listed, distance, bench_listed, bench_distance) {
        return Won {
            library: Whose::Bench,
            trace: bench_list[0],
            distance: bench_distance,
        };
    }
    Won {
        library: Whose::Factory,
        trace: list[0],
        distance,
    }
}
