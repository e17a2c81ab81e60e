// The ways of a hole, up and down. While a key is on its way the places are no heap, so these take the places and not the heap. Places that
// are lent to be read alone can't be a `Heap`: their least key is told here too.
ghost use Rattle.std.specs.Prelude.{◌<◌, ◌≤◌, length, get_or};
ghost use Rattle.heap.specs.Heap.{IsHeap, Least, Lesser, Pushed, Sunk, Popped};

// Puts a key into a heap of n keys, which then has n + 1.
pub fn rise(s: &mut [u64], n: usize, key: u64)
    requires { (n < length s.old) × (IsHeap n s.old) }
    ensures { Pushed n key s.old s.new }
{
    let mut at = n;
    while 0 < at {
        let up = (at - 1) / 2;
        let k = s[up];
        if k <= key {
            s[at] = key;
            return;
        }
        s[at] = k;
        at = up;
    }
    s[at] = key;
}

// The place of the lesser of the keys at `left` and at the place after it, if that is below n. What the comparison says is added, not
// branched on: which of two keys is the lesser is guessed wrong as often as not.
fn lesser(s: &[u64], n: usize, left: usize) -> usize
    requires { (left < n) × (n ≤ length s.now) }
    ensures { Lesser n left s.now result }
{
    let right = left + 1;
    if n <= right {
        return left;
    }
    left + usize::from(s[right] < s[left])
}

// Puts a key that is not below the least in the place of the least of a heap of n keys.
pub fn sink(s: &mut [u64], n: usize, key: u64)
    requires { (0 < n) × (n ≤ length s.old) × (IsHeap n s.old) × (get_or s.old 0 0 ≤ key) }
    ensures { Sunk n key s.old s.new }
{
    let mut at: usize = 0;
    let mut left: usize = 1;
    while left < n {
        let c = lesser(s, n, left);
        let k = s[c];
        if key <= k {
            s[at] = key;
            return;
        }
        s[at] = k;
        at = c;
        left = 2 * c + 1;
    }
    s[at] = key;
}

// The least of the n keys of a heap. It stays in.
pub fn least(s: &[u64], n: usize) -> u64
    requires { (0 < n) × (n ≤ length s.now) × (IsHeap n s.now) }
    ensures { Least n s.now result }
{
    s[0]
}

// Takes the least of n keys out of a heap, which then has n - 1.
pub fn take_least(s: &mut [u64], n: usize) -> u64
    requires { (0 < n) × (n ≤ length s.old) × (IsHeap n s.old) }
    ensures { Popped n result s.old s.new }
{
    let least = s[0];
    let last = n - 1;
    let key = s[last];
    s[last] = 0;
    if 0 < last {
        sink(s, last, key);
        return least;
    }
    least
}
