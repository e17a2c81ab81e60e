// A sheet of any bytes block by block: the position in it, torn blocks, and bytes that must be 0.
#![tactic(auto)]

pub mod blocks; // the position in a sheet, and torn blocks
pub mod zeros; // bytes that must be 0
