// The figures of a leaf's traces on a run of samples, and the leaf's spread.
#![tactic(auto)]

pub mod along;
pub mod ends;
pub mod filling;
pub mod listed;
pub mod lists;
pub mod rows;
pub mod sameness;
pub mod sides;
pub mod spread;
pub mod stored;
pub mod table;
