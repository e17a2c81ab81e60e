// A stored leaf.

use segment::Word;

// A leaf of some of k stored traces of n samples each: its list starts at `head`.
#[derive(Clone, Copy)]
pub struct StoredLeaf<'a> {
    pub samples: &'a [Word],
    pub links: &'a [u16],
    pub n: usize,
    pub k: usize,
    pub head: usize,
}
