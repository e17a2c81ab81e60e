// The rows of a script, and the numbers of a row.

ghost use Rattle.std.specs.Prelude.{◌≡◌};
ghost use Rattle.std.specs.Iterator.{YieldsFirstRef, item_count};
ghost use Rattle.tables.specs.Judge.{lengths_by};
ghost use Rattle.replay.specs.Script.{rows_left, number_at, lent_by};

use tables::Lengths;

// A number as a length: both have 64 bits. The library has no `From` for it.
pub fn places(x: u64) -> usize
    ensures { result ≡ x }
{
    x as usize
}

// A number of a row, and 0 behind its end.
pub fn number_at(row: &[u64], place: usize) -> u64
    ensures { result ≡ number_at row.now place }
{
    row.get(place).copied().unwrap_or(0)
}

// The lengths that a row says.
pub fn lengths(row: &[u64]) -> Lengths
    ensures { lengths_by result ≡ lent_by row.now }
{
    Lengths {
        control: places(number_at(row, 1)),
        samples: places(number_at(row, 2)),
        nodes: places(number_at(row, 3)),
        links: places(number_at(row, 4)),
        work: places(number_at(row, 5)),
        labels: places(number_at(row, 6)),
    }
}

// The rows of a script that are left, each behind its length. The last one ends with the script, if it says that it is longer.
#[derive(Drop)]
pub struct Rows<'a>(pub &'a [u64]);

impl<'a> Iterator for Rows<'a> {
    type Item = &'a [u64];

    ghost next_gives = { YieldsFirstRef rows_left };

    ghost remaining = { item_count rows_left };

    #[tactic(auto, using(crate::proofs::ReadBack::no_row))]
    fn next(&mut self) -> Option<&'a [u64]> {
        let (size, rest) = self.0.split_first()?;
        let (row, others) = rest.split_at(places(*size).min(rest.len()));
        self.0 = others;
        Some(row)
    }
}
