// The six tables, lent to read.

ghost use Rattle.std.specs.Prelude.{◌≡◌};
ghost use Rattle.tables.specs.Tables.{lent_of, measures_of};
ghost use Rattle.tables.specs.Judge.{lengths_by, measures_by};
ghost use Rattle.tables.specs.Shared.{tables_lent};

use crate::control::field;
use crate::numbers::wider;
use crate::places::{CAPACITY, LEAF_SIZE, N};
use crate::{Lengths, Measures};
use segment::Word;

// What every judge reads.
#[derive(Clone, Copy)]
pub struct Lent<'a> {
    pub control: &'a [u16],
    pub samples: &'a [Word],
    pub nodes: &'a [i64],
    pub links: &'a [u16],
    pub work: &'a [u64],
    pub labels: &'a [u64],
}

impl Lent<'_> {
    pub fn lengths(self) -> Lengths
        ensures { lengths_by result ≡ lent_of (tables_lent self.entry) }
    {
        Lengths {
            control: self.control.len(),
            samples: self.samples.len(),
            nodes: self.nodes.len(),
            links: self.links.len(),
            work: self.work.len(),
            labels: self.labels.len(),
        }
    }

    // As the control record has them, whatever it has.
    pub fn measures(self) -> Measures
        ensures { measures_by result ≡ measures_of (tables_lent self.entry) }
    {
        Measures {
            n: wider(field(self.control, N)),
            capacity: wider(field(self.control, CAPACITY)),
            leaf_size: wider(field(self.control, LEAF_SIZE)),
        }
    }
}
