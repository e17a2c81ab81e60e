// The counts of the bands in the caller's list: two places a band, how many traces surely lie in it and how many may. C lends it as numbers.
ghost use Rattle.std.specs.Prelude.{◌≡◌, ℕ, ◌+◌, ◌*◌, ◌≤◌, ◌<◌, length, drop, leb, eqb, ◌&&◌, if◌then◌else◌};
ghost use Rattle.dstree.specs.Bands.{most_edges};
ghost use Rattle.dstree.specs.Measures.{most_nodes, most_traces};
ghost use Rattle.band_counts.specs.Counted.{count_at, with_count, count_with, CountFits};

// What a leaf adds to the sure number of a band in which figures have reached `here` edges: both its own have.
fn sure_more(by_bound: u64, by_upper: u64, here: u64, traces: u64) -> u64
    ensures { result ≡ (if eqb by_bound here && eqb by_upper here then traces else 0) }
{
    if by_bound == here && by_upper == here {
        traces
    } else {
        0
    }
}

// .. and to its possible number: its bound has reached no more, and its upper figure no fewer.
fn possible_more(by_bound: u64, by_upper: u64, here: u64, traces: u64) -> u64
    ensures { result ≡ (if leb by_bound here && leb here by_upper then traces else 0) }
{
    if by_bound <= here && here <= by_upper {
        traces
    } else {
        0
    }
}

// One band: a leaf with so many traces, whose bound and upper figure have reached so many edges.
fn count_band(list: &mut [u64], band: usize, by_bound: u64, by_upper: u64, traces: u64)
    requires { (band < most_edges) × (2 * band + 2 ≤ length list.old) × (traces ≤ most_traces)
        × CountFits most_nodes (count_at list.old band) }
    ensures { list.new
        ≡ with_count list.old band (count_with by_bound by_upper traces band (count_at list.old band)) }
{
    let here = band as u64 + 1;
    let at = 2 * band;
    let sure = list[at] + sure_more(by_bound, by_upper, here, traces);
    let possible = list[at + 1] + possible_more(by_bound, by_upper, here, traces);
    list[at] = sure;
    list[at + 1] = possible;
}

// Every band. A leaf whose two numbers differ is sure nowhere.
//
// Two wrong programs that the contract rules out: one that counts a leaf as sure by its bound alone, and one that leaves out the band in
// which the upper figure ends.
pub fn count_leaf(list: &mut [u64], bands: usize, by_bound: u64, by_upper: u64, traces: u64)
    requires { (bands < most_edges) × (2 * bands ≤ length list.old) × (traces ≤ most_traces)
        × ((k : ℕ) → k < bands → CountFits most_nodes (count_at list.old k)) }
    ensures counts { (k : ℕ) → k < bands → count_at list.new k
        ≡ count_with by_bound by_upper traces k (count_at list.old k) }
    ensures rest { drop (2 * bands) list.new ≡ drop (2 * bands) list.old }
{
    for band in 0..bands {
        count_band(list, band, by_bound, by_upper, traces);
    }
}
