// "the letters TRCL (ASCII)", which a writer puts and a reader compares.
pub const LETTERS: [u8; 4] = *b"TRCL";
