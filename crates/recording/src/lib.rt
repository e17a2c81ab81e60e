// Recordings: WAV files as bytes, what a file of any bytes holds, and how one trace is written as a file.
#![tactic(auto)]

pub mod letters; // the letters of a header
pub mod header; // the header's sections, compared and written
pub mod judging; // how many traces a file holds
pub mod samples; // the traces of a sound file, one at a time
pub mod writing; // one trace as a file
