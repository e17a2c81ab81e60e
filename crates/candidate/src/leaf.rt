// A leaf, as its candidates see it.

use leaf_figures::ends::Ends;
use leaf_figures::rows::Rows;

// A leaf's traces with the table of their figures, the right ends of its node, and its spread over them.
#[derive(Clone, Copy)]
pub struct Leaf<'a> {
    pub rows: Rows<'a>,
    pub ends: Ends,
    pub whole: u64,
}
