// How many traces lie within each band, from the records alone: no trace is read.
#![tactic(auto)]

pub mod edges; // how many edges a figure has reached
pub mod list; // what a leaf adds to the counts of each band
pub mod nodes; // node after node, each from its parent's
pub mod report; // the whole report, and search work left zero
