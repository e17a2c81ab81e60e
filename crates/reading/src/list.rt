// The nearest traces so far, in a list that the caller lends: two places a record, trace number and distance, by distance and then by
// number.
// The records lie flat in the lent places, and not as pairs: the C interface has them so.
ghost use Rattle.std.specs.Prelude.{◌≡◌, ◌+◌, ◌*◌, ◌-◌, ◌≤◌, length, get_or, drop, set};
ghost use Rattle.integer.specs.Sorting.{sorted_with, Ordered};
ghost use Rattle.dstree.specs.Matching.{is_nearer};
ghost use Rattle.dstree.specs.KNearest.{list_with};
ghost use Rattle.reading.specs.Nearest.{near};
ghost use Rattle.reading.specs.Listed.{record_at, nears_in, kth_distance, limit_of, ListRoom, ListBegins};

// A trace comes before record i: it is nearer, or as near with a lower number.
fn comes_before(list: &[u64], i: usize, trace: u64, distance: u64) -> bool
    requires { 2 * i + 2 ≤ length list.now }
    ensures { result ≡ is_nearer (near trace distance) (record_at list.now i) }
{
    let at = 2 * i;
    let other = list[at + 1];
    if distance < other {
        return true;
    }
    if other < distance {
        return false;
    }
    trace < list[at]
}

// The distance of the k-th record, if so many are listed.
pub fn kth_distance(list: &[u64], listed: usize, k: usize) -> Option<u64>
    requires { (1 ≤ k) × (2 * k ≤ length list.now) }
    ensures { result ≡ kth_distance k listed list.now }
{
    if listed < k {
        return None;
    }
    let at = 2 * (k - 1);
    Some(list[at + 1])
}

// 2^49, which no distance of 256 samples passes. (A limit of 2^64 - 1 the compiler would see to be none, and make no vector code.)
const NO_LIMIT: u64 = 562949953421312;

// The distance beyond which a trace has no place: the k-th record's. While fewer than k are listed every trace has a place.
pub fn limit_of(list: &[u64], listed: usize, k: usize) -> u64
    requires { (1 ≤ k) × (2 * k ≤ length list.now) }
    ensures { result ≡ limit_of k listed list.now }
{
    kth_distance(list, listed, k).unwrap_or(NO_LIMIT)
}

// Record i is this trace then.
fn put(list: &mut [u64], i: usize, trace: u64, distance: u64)
    requires { 2 * i + 2 ≤ length list.old }
    ensures { list.new ≡ set (set list.old (2 * i) trace) (2 * i + 1) distance }
{
    let at = 2 * i;
    list[at] = trace;
    list[at + 1] = distance;
}

// Record i is the next one's too then.
fn move_on(list: &mut [u64], i: usize)
    requires { 2 * i + 4 ≤ length list.old }
    ensures { list.new
        ≡ set (set list.old (2 * i + 2) (get_or list.old (2 * i) 0)) (2 * i + 3)
        (get_or list.old (2 * i + 1) 0) }
{
    let at = 2 * i;
    list[at + 2] = list[at];
    list[at + 3] = list[at + 1];
}

// A trace goes to its place among the first m records, which are in order; those behind it move one record on.
fn insert(list: &mut [u64], m: usize, trace: u64, distance: u64)
    requires { (2 * m + 2 ≤ length list.old) × Ordered is_nearer (nears_in m list.old) }
    ensures nears { nears_in (m + 1) list.new
        ≡ sorted_with is_nearer (near trace distance) (nears_in m list.old) }
    ensures rest { drop (2 * (m + 1)) list.new ≡ drop (2 * (m + 1)) list.old }
{
    for i in (0..m).rev() {
        if !comes_before(list, i, trace, distance) {
            put(list, i + 1, trace, distance);
            return;
        }
        move_on(list, i);
    }
    put(list, 0, trace, distance);
}

// One trace more, of which the k nearest stay; answers how many are listed then. Most traces are no nearer than the k-th: one test is
// enough for them.
//
// Two wrong programs that the contract rules out: one that keeps the later of two at an equal distance whatever their numbers, and one
// that writes the record behind the k-th.
pub fn put_in_list(list: &mut [u64], listed: usize, k: usize, trace: u64, distance: u64) -> usize
    requires { ListRoom k listed list.old }
    ensures { ListBegins k result (list_with k (nears_in listed list.old) (near trace distance)) list.old
        list.new }
{
    if listed < k {
        insert(list, listed, trace, distance);
        return listed + 1;
    }
    if !comes_before(list, k - 1, trace, distance) {
        return k;
    }
    insert(list, k - 1, trace, distance);
    k
}
