// The trail of a batch: the numbers of marked nodes, rising.
ghost use Rattle.std.specs.Prelude.{◌≡◌, true, ◌≤◌, ◌<◌, length};
ghost use Rattle.batch_search.specs.Batched.{Noted, TrailBegins};
ghost use Rattle.dstree.specs.Measures.{most_nodes};
ghost use Rattle.tables.specs.Layout.{node_places};
ghost use Rattle.batch_leaves.specs.LeavesRead.{is_marked, marked_of};

// Node j's number at a place of the trail, if it has a mark. Answers the place behind what is written.
fn note(marks: &[u8], j: usize, trail: &mut [u16], out: usize) -> usize
    requires { (j < length marks.now) × (j ≤ most_nodes)
        × (is_marked marks.now j ≡ true → (out < length trail.old) × (out ≤ most_nodes)) }
    ensures { Noted (is_marked marks.now j) j out result trail.old trail.new }
{
    if marks[j] != 0 {
        trail[out] = j as u16;
        return out + 1;
    }
    out
}

// The numbers of marked nodes at the trail's beginning; the trail's other places stay.
pub fn write_trail(marks: &[u8], count: usize, trail: &mut [u16])
    requires { (count ≤ node_places) × (count ≤ length marks.now) × (length (marked_of marks.now count) ≤ length trail.old) }
    ensures { TrailBegins (marked_of marks.now count) trail.old trail.new }
{
    let mut out: usize = 0;
    for j in 0..count {
        out = note(marks, j, trail, out);
    }
}
