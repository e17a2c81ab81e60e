// Adding a trace to tables that are known to be well formed.
#![tactic(auto)]

pub mod lists; // a leaf's list of traces, by the links
pub mod widening; // a record widened by a trace
pub mod heads; // the heads of a leaf's and of an inner node's record, and the first leaf
pub mod way; // the way down by the tests
