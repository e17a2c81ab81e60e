// Reading a leaf: the distances of its traces, and the nearest of them so far.
#![tactic(auto)]

pub mod leaf;
pub mod list;
