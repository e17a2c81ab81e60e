// The limits of a segment's figures and of a test's threshold, on plain numbers.

ghost use Rattle.std.specs.Prelude.{◌≡◌, ℕ, ◌≤◌, ◌<◌, ◌^◌, pos, neg_ℤ, T};
ghost use Rattle.std.specs.Int.Signed.{le_z};
ghost use Rattle.dstree.specs.Measures.{sample_limit, most_samples};
ghost use Rattle.dstree.specs.Node.{by_sum, by_scatter};
ghost use Rattle.dstree.specs.WellFormed.{segment_fits, threshold_fits};
ghost use Rattle.tables.specs.View.{scatter_in};

const SAMPLE_LIMIT: u64 = 524288; // samples are from −SAMPLE_LIMIT to SAMPLE_LIMIT − 1

// ---- numbers with a sign

fn in_order(a: i64, b: i64) -> bool
    ensures { result ≡ le_z a b }
{
    a <= b
}

// A number that is up to a limit is from −limit on.
fn not_below(limit: u64, v: i64) -> bool
    requires { (limit < 2 ^ 62) × T (le_z v (pos limit)) }
    ensures { result ≡ le_z (neg_ℤ (pos limit)) v }
{
    0 <= v + limit as i64
}

// A number is up to a limit.
fn not_above(limit: u64, v: i64) -> bool
    requires { limit < 2 ^ 63 }
    ensures { result ≡ le_z v (pos limit) }
{
    v <= limit as i64
}

// ---- limits

// The figures of a segment of w samples: least at most greatest, sums up to a limit either side of 0, scatters from 0 to its square. A test
// of one side is enough for each of the four, as least and greatest are in order.
pub fn figures_fit(
    w: u64,
    least_sum: i64,
    greatest_sum: i64,
    least_scatter: i64,
    greatest_scatter: i64,
) -> bool
    requires { w ≤ most_samples }
    ensures { (end : ℕ) → result ≡ segment_fits sample_limit w (record {
      end = end;
      least_sum = least_sum;
      greatest_sum = greatest_sum;
      least_scatter = scatter_in least_scatter;
      greatest_scatter = scatter_in greatest_scatter;
    }) }
{
    if !in_order(least_sum, greatest_sum) {
        return false;
    }
    let limit = w * SAMPLE_LIMIT;
    if !not_above(limit, greatest_sum) {
        return false;
    }
    if !not_below(limit, least_sum) {
        return false;
    }
    if !in_order(0, least_scatter) {
        return false;
    }
    if !in_order(least_scatter, greatest_scatter) {
        return false;
    }
    not_above(limit * limit, greatest_scatter)
}

// A threshold by sum on a run of w samples: up to twice the limit of a sum, either side of 0.
pub fn sum_threshold_fits(w: u64, threshold: i64) -> bool
    requires { w ≤ most_samples }
    ensures { result ≡ threshold_fits sample_limit by_sum w threshold }
{
    let limit = w * SAMPLE_LIMIT;
    if !not_above(2 * limit, threshold) {
        return false;
    }
    not_below(2 * limit, threshold)
}

// A threshold by scatter: up to the same limit, which is that of a scatter's root too, from 0 on.
pub fn scatter_threshold_fits(w: u64, threshold: i64) -> bool
    requires { w ≤ most_samples }
    ensures { result ≡ threshold_fits sample_limit by_scatter w threshold }
{
    let limit = w * SAMPLE_LIMIT;
    if !in_order(0, threshold) {
        return false;
    }
    not_above(2 * limit, threshold)
}
