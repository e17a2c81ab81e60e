// The roots of a scatter, and one segment's part in a node's bound, spread and upper figure.
#![tactic(auto)]

pub mod roots;
pub mod terms;
