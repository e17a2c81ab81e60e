// The rules of "Well-formed tables" that one record shows by itself. Ends of a child and its parent, marks, leaves and counts are tested
// above this crate.
#![tactic(auto)]

pub mod figures; // the limits of sums, scatters and thresholds
pub mod records; // one record
