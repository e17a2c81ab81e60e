// What a node's record says of a query's distances to the traces below it: no less than the bound, no more than the upper figure.
#![tactic(auto)]

mod terms; // the terms of a record's segments, totalled
pub mod bound; // the bound
pub mod upper; // the upper figure
