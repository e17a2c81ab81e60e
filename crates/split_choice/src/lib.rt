// Which split a leaf takes: the candidate with the greatest gain, the earliest among equals.
#![tactic(auto)]

pub mod choice;
