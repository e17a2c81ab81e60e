// A batch of queries over tables that are known to be well formed: a leaf is read for all queries at once, and never twice.
#![tactic(auto)]

pub mod visiting; // the leaves that one query asks for
pub mod marked; // the trail, from marks of the leaves read
pub mod searching; // query after query, with what is left zero
