// What every search reads of a library, lent to read.

use segment::Word;

// Search work is no part of it: a search writes that.
#[derive(Clone, Copy)]
pub struct Stored<'a> {
    pub control: &'a [u16],
    pub samples: &'a [Word],
    pub nodes: &'a [i64],
    pub links: &'a [u16],
}
