// The roots of a scatter, in whole numbers.
ghost use Rattle.std.specs.Prelude.{◌≡◌, ◌+◌, ◌*◌, ◌/◌, ◌^◌, ◌≤◌, ◌<◌, pos, ◌*ℤ◌};
ghost use Rattle.std.specs.Int.Signed.{le_z};
ghost use Rattle.segment.specs.Roots.{next_estimate, falling_from, floor_root, ceiling_root};

// A number above the root, on a line: of v / 4 ^ s, where s is half of v's length in bits, which is from a half to 2. One line serves up to
// 1, another from there on, and each is at most a fiftieth above the root. Shifts do the divisions. No scatter has 64 bits; of such a v the
// line would not fit the steps below, and 2 ^ 32 does for it.
fn line(v: u64) -> u64
    requires { 0 < v }
    ensures { (result ≤ 2 ^ 32) × (v < result * result) }
{
    if 9223372036854775808 <= v {
        return 4294967296;
    }
    let s = (64 - v.leading_zeros()) / 2;
    let one: u64 = 1 << s;
    let x = (v >> s) + 1;
    if x <= one {
        return (151 * x + 109 * one) / 256 + 1;
    }
    (107 * x + 154 * one) / 256 + 1
}

// The estimate after one above the root. The mean is then lower, so that it need not be tested.
fn lower(v: u64, est: u64) -> u64
    requires { (est ≤ 2 ^ 32) × (v < est * est) }
    ensures { result ≡ next_estimate v est }
{
    (est + v / est) / 2
}

// The estimate after one that may be the root. Of 3 and the estimate 1 the mean is 2: an estimate never rises, so that 1 stays.
fn lower_or_same(v: u64, est: u64) -> u64
    requires { (0 < est) × (est ≤ 2 ^ 32) }
    ensures { result ≡ next_estimate v est }
{
    let quotient = v / est;
    if quotient < est {
        (est + quotient) / 2
    } else {
        est
    }
}

// The last of the falling estimates from one above the root. Mostly that is the second, so that two steps are taken before any test.
// Stopping one estimate late, or at the first estimate whose square is near v, does not meet this.
fn falling_from(v: u64, start: u64) -> u64
    requires { (0 < v) × (start ≤ 2 ^ 32) × (v < start * start) }
    ensures { result ≡ falling_from start v start }
{
    let mut est = lower_or_same(v, lower(v, start));
    // "falling estimates until one no longer falls": the loop yields the last of them by its break
    let root = loop {
        // it no longer falls; the product shows that sooner than the division of a next estimate would
        if est * est <= v {
            break est;
        }
        est = lower(v, est);
    };
    root
}

// The floor root: the largest r whose square is at most v. (The library's `isqrt` halves an interval and takes 2.7 times as long.)
pub fn floor_root(v: u64) -> u64
    ensures { result ≡ floor_root v }
{
    if v == 0 {
        return 0;
    }
    falling_from(v, line(v))
}

// The ceiling root: the least r whose square is at least v. The floor root and one does not meet this where v is a square.
pub fn ceiling_root(v: u64) -> u64
    ensures { result ≡ ceiling_root v }
{
    let r = floor_root(v);
    if r * r == v { r } else { r + 1 }
}

// Whether twice the floor root of v is at most t. No root is taken: it is so exactly if v is below the square of t / 2, rounded down, and
// one. Half of t rounded up does not meet this, nor does a square that is too large for its type: from 2 ^ 32 on every v is below it.
pub fn twice_root_within(v: u64, t: i64) -> bool
    ensures { result ≡ le_z (pos 2 *ℤ pos (floor_root v)) t }
{
    let Ok(t) = u64::try_from(t) else {
        return false;
    };
    let beyond = t / 2 + 1;
    if 4294967296 <= beyond {
        return true;
    }
    v < beyond * beyond
}
