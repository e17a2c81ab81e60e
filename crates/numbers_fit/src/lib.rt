// The rules of "Well-formed tables" on numbers: every node but 0 is a child once, and every trace number is in one leaf, rising there.
#![tactic(auto)]

pub mod marks; // numbers met, in a table of their own
pub mod children; // every node but 0 a child once
pub mod leaves; // every trace number in one leaf
