// The letters of a header (ASCII), which a writer puts and a reader compares.

pub const RIFF: [u8; 4] = *b"RIFF";

pub const WAVE: [u8; 4] = *b"WAVE";

pub const FORMAT: [u8; 4] = *b"fmt ";

pub const DATA: [u8; 4] = *b"data";
