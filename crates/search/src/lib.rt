// The search through tables that are known to be well formed, for one query.
#![tactic(auto)]

pub mod stored; // what is lent to be searched
pub mod visiting; // the loop over the leaves in order
pub mod searching; // the loop, with what it needs before and what it leaves zero
