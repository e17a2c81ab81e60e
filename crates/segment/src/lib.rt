// A segment's figures, the distance of two, the distance with a limit, and how far sweeps inside ranges can be.
#![tactic(auto)]

pub mod figures;
pub mod ranges;
pub mod samples;
pub mod within;

// One sample of a trace as a caller gives it: a plain number. It can be outside the limits, and is refused then.
pub type Sample = i32;

// One sample as it is stored: in the high 20 bits of 32. Every word stands for a sample within the limits.
pub type Word = i32;
