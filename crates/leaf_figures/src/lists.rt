// A leaf's list of traces in an array, and where in it each of them stands.

ghost use Rattle.std.specs.Prelude.{◌≡◌, ℕ, ◌≤◌, ◌<◌, length, take};
ghost use Rattle.integer.specs.Lists.{In};
ghost use Rattle.dstree.specs.Measures.{most_traces};
ghost use Rattle.tables.specs.Walk.{Rising, numbers_of};
ghost use Rattle.leaf_figures.specs.Rows.{PlacesInList};

// The numbers of the list that starts at `head`, in its order. The answer is how many there are; places behind them are not looked at.
pub fn list_leaf(links: &[u16], k: usize, head: usize, list: &mut [u16; 4096]) -> usize
    requires { (head < k) × (k ≤ most_traces) × (k ≤ length links.now) × Rising links.now k × (length list.old ≡ most_traces) }
    ensures list_after { take result list.new ≡ numbers_of links.now k head }
    ensures few { result ≤ most_traces }
    ensures size { length list.new ≡ most_traces }
{
    let mut count: usize = 0;
    let mut t = head;
    while t < k {
        list[count] = t as u16;
        count += 1;
        t = tables::walk::behind(links, k, t);
    }
    count
}

// Where each number stands in the list.
pub fn place_list(list: &[u16], place: &mut [u16; 4096])
    requires { (length list.now ≤ most_traces) × (length place.old ≡ most_traces) × ((t : ℕ) → In t list.now → t < most_traces) }
    ensures { PlacesInList list.now place.new }
{
    for (i, &number) in list.iter().enumerate() {
        place[usize::from(number)] = i as u16;
    }
}
