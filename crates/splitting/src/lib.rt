// Splitting leaves that hold more than the leaf size.
#![tactic(auto)]

pub mod lists; // the sides of a leaf's list, laid as lists of their own
pub mod leaves; // the records of new leaves
pub mod splits; // one leaf split
pub mod pass; // the joined leaf split, then the new ones
