// One segment's part in a node's bound, spread and upper figure.
ghost use Rattle.std.specs.Prelude.{◌≡◌, ◌-◌, ◌/◌, ◌<◌, ◌≤◌, nat_abs};
ghost use Rattle.segment.specs.Limits.{sum_room, scatter_room, gap_room, term_most, width_most};
ghost use Rattle.segment.specs.Roots.{floor_root, ceiling_root};
ghost use Rattle.segment.specs.Terms.{sum_gap, scatter_gap, bound_term, spread_term};
ghost use Rattle.segment.specs.Upper.{sum_reach, scatter_reach, upper_term};

use crate::roots::{ceiling_root, floor_root};
use segment::figures::square;

// The distance from t to the sums from `least` to `greatest`. The distance to the nearer end does not meet this where t is between them,
// nor does one that is measured from the end on the other side. (Of samples it is `segment::ranges::gap`, for the compiler takes several of
// 32 bits at a time. No type parameter serves both: the library's `abs_diff` is a method of each type.)
pub fn sum_gap(t: i64, least: i64, greatest: i64) -> u64
    ensures { result ≡ sum_gap t least greatest }
{
    if t < least {
        least.abs_diff(t)
    } else if greatest < t {
        t.abs_diff(greatest)
    } else {
        0
    }
}

// By how much the floor root of a is over the ceiling root of b. The floor root of b in its place does not meet this: for 9 and 8 it gives
// 1. No root is taken where a is not above b.
pub fn root_excess(a: u64, b: u64) -> u64
    ensures { result ≡ floor_root a - ceiling_root b }
{
    if a <= b {
        return 0;
    }
    floor_root(a).saturating_sub(ceiling_root(b))
}

// How far a scatter u is from those from `least` to `greatest`, in roots that are rounded so that it is never too much. Where these two are
// in order one of the two differences is 0, and the other one's scatters are picked without a branch: on which side u lies is guessed wrong
// as often as not.
pub fn scatter_gap(u: u64, least: u64, greatest: u64) -> u64
    ensures { result ≡ scatter_gap u least greatest }
{
    if greatest < least {
        return root_excess(least, u).max(root_excess(u, greatest));
    }
    root_excess(u.max(least), u.min(greatest))
}

// v / w. Segments that come of halving 256 samples are powers of two wide, and a shift then does the division.
fn quotient(v: u64, w: u64) -> u64
    requires { 0 < w }
    ensures { result ≡ v / w }
{
    let s = w.ilog2();
    let power: u64 = 1 << s;
    if power == w { v >> s } else { v / w }
}

// A segment's term of a node's bound, rounded up. Rounded down it does not meet this, nor with one added always.
pub fn bound_term(w: u64, g: u64, h: u64) -> u64
    requires { (0 < w) × (w ≤ width_most) × (g ≤ gap_room) × (h ≤ gap_room) }
    ensures { result ≡ bound_term w g h }
{
    quotient(g * g + h * h + (w - 1), w)
}

// A segment's term of a node's bound, from the query's sum t and scatter u and the node's ranges. The ranges need not be in order.
pub fn segment_bound(
    w: u64,
    t: i64,
    u: u64,
    least_sum: i64,
    greatest_sum: i64,
    least_scatter: u64,
    greatest_scatter: u64,
) -> u64
    requires { (0 < w) × (w ≤ width_most) × (nat_abs t ≤ sum_room) × (nat_abs least_sum ≤ sum_room) × (nat_abs greatest_sum ≤ sum_room)
        × (u ≤ scatter_room) × (least_scatter ≤ scatter_room) }
    ensures value { result ≡ bound_term w (sum_gap t least_sum greatest_sum) (scatter_gap u least_scatter greatest_scatter) }
    ensures size { result ≤ term_most }
{
    let g = sum_gap(t, least_sum, greatest_sum);
    let h = scatter_gap(u, least_scatter, greatest_scatter);
    bound_term(w, g, h)
}

// The larger distance from t to the least or the greatest sum: the distance to a range of one number is that to the number. The distance
// to the nearer end does not meet this.
pub fn sum_reach(t: i64, least: i64, greatest: i64) -> u64
    ensures { result ≡ sum_reach t least greatest }
{
    sum_gap(t, least, least).max(sum_gap(t, greatest, greatest))
}

// The ceiling roots of the greatest scatter and of u together. The ceiling root of their sum does not meet this.
pub fn scatter_reach(u: u64, greatest: u64) -> u64
    requires { (u ≤ scatter_room) × (greatest ≤ scatter_room) }
    ensures { result ≡ scatter_reach u greatest }
{
    ceiling_root(greatest) + ceiling_root(u)
}

// A segment's term of a node's upper figure, rounded down. Rounded up it does not meet this.
pub fn upper_term(w: u64, g: u64, h: u64) -> u64
    requires { (0 < w) × (w ≤ width_most) × (g ≤ gap_room) × (h ≤ gap_room) }
    ensures { result ≡ upper_term w g h }
{
    quotient(g * g + h * h, w)
}

// A segment's term of a node's upper figure, from the query's sum t and scatter u and the node's ranges. The ranges need not be in order.
pub fn segment_upper(
    w: u64,
    t: i64,
    u: u64,
    least_sum: i64,
    greatest_sum: i64,
    greatest_scatter: u64,
) -> u64
    requires { (0 < w) × (w ≤ width_most) × (nat_abs t ≤ sum_room) × (nat_abs least_sum ≤ sum_room) × (nat_abs greatest_sum ≤ sum_room)
        × (u ≤ scatter_room) × (greatest_scatter ≤ scatter_room) }
    ensures value { result ≡ upper_term w (sum_reach t least_sum greatest_sum) (scatter_reach u greatest_scatter) }
    ensures size { result ≤ term_most }
{
    let g = sum_reach(t, least_sum, greatest_sum);
    let h = scatter_reach(u, greatest_scatter);
    upper_term(w, g, h)
}

// A segment's term of a node's spread, rounded down. Rounded up it does not meet this, nor with the least scatter in place of the greatest.
pub fn spread_term(w: u64, least_sum: i64, greatest_sum: i64, greatest_scatter: u64) -> u64
    requires { (0 < w) × (w ≤ width_most) × (nat_abs least_sum ≤ sum_room) × (nat_abs greatest_sum ≤ sum_room)
        × (greatest_scatter ≤ scatter_room) }
    ensures value { result ≡ spread_term w least_sum greatest_sum greatest_scatter }
    ensures size { result ≤ term_most }
{
    (square(greatest_sum - least_sum) + greatest_scatter) / w
}
