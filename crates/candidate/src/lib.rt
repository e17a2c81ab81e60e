// One candidate for a leaf's split: the sides of its test, whether both are seen, and its gain.
#![tactic(auto)]

pub mod leaf; // the leaf
pub mod siding; // its sides as lists
pub mod parting; // whether both are seen
pub mod marking; // its sides as marks
pub mod gains; // its gain
