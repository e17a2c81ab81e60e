// A child's ends include its parent's. Both records were tested by themselves.

ghost use Rattle.std.specs.Prelude.{◌≡◌, length};
ghost use Rattle.tables.specs.Layout.{segments_place, record_places};
ghost use Rattle.tables.specs.View.{small_at, segments_in};
ghost use Rattle.records_fit.specs.Fits.{segments_in_from, ends_in, EndsRise};

use records_fit::records::end_at;
use tables::places::SEGMENTS;
use tables::records::small_at;

// The first `many` ends of the parent are among the first `count` of the child. Both rise, so that one pass over the child's is enough:
// each end of the parent is passed when it is met, in order, and any other end of the child is one to spare.
// A chain is no plainer: the parent's index moves only where the ends agree.
fn ends_in(child: &[i64], count: usize, parent: &[i64], many: usize) -> bool
    requires { (length child.now ≡ record_places) × EndsRise child.now count
        × (length parent.now ≡ record_places) × EndsRise parent.now many }
    ensures { result ≡ ends_in (segments_in_from child.now count 0) (segments_in_from parent.now many 0) }
{
    if count < many {
        return false;
    }
    let mut p: usize = 0;
    let mut i: usize = 0;
    while p < many {
        if end_at(child, i) == end_at(parent, p) {
            p += 1;
            i += 1;
            continue;
        }
        if count + p <= many + i {
            return false;
        }
        i += 1;
    }
    true
}

// All ends of both.
pub fn ends_kept(child: &[i64], parent: &[i64]) -> bool
    requires { (length child.now ≡ record_places) × EndsRise child.now (small_at child.now segments_place)
        × (length parent.now ≡ record_places) × EndsRise parent.now (small_at parent.now segments_place) }
    ensures { result ≡ ends_in (segments_in child.now) (segments_in parent.now) }
{
    let count = small_at(child, SEGMENTS);
    let many = small_at(parent, SEGMENTS);
    ends_in(child, count, parent, many)
}
