// Two libraries searched together, for one query: the leaves of each in their own order, the lower next bound first.
#![tactic(auto)]

pub mod sides; // one of the two: its next leaf, and what was found in it
pub mod limits; // how far the search goes
pub mod turns; // whose turn it is
pub mod leaf_ahead; // the leaf ahead is read
pub mod advancing; // the leaf ahead is read, and the next one taken
pub mod stepping; // one turn of both
pub mod starting; // one library before anything is read
pub mod visiting; // turn after turn
pub mod winning; // which library has the nearest trace
pub mod searching; // the turns, with what they need before and what is left zero
