// Which call a row makes, by the row's first number.

ghost use Rattle.std.specs.Prelude.{◌≡◌, Some};
ghost use Rattle.replay.specs.Script.{kinds, call_kind_at, kind_found, kind_name};

use std::fmt::{self, Display};

#[derive(Clone, Copy, Debug, PartialEq, Eq)]
pub enum RowKind {
    Opening,
    Adding,
    Matching,
    Writing,
    Reading,
}

// A number of no kind is given back.
impl TryFrom<u64> for RowKind {
    type Error = u64;

    ghost try_from_gives = { λ number found. kind_found found ≡ call_kind_at kinds number };

    fn try_from(number: u64) -> Result<RowKind, u64> {
        match number {
            0 => Ok(RowKind::Opening),
            1 => Ok(RowKind::Adding),
            2 => Ok(RowKind::Matching),
            3 => Ok(RowKind::Writing),
            4 => Ok(RowKind::Reading),
            _ => Err(number),
        }
    }
}

impl Display for RowKind {
    ghost output = { λ kind. Some (kind_name kind) };

    #[tactic(auto, unfolding(crate::specs::Script::kind_name))]
    fn fmt<W: fmt::Write>(&self, f: &mut fmt::Formatter<W>) -> fmt::Result {
        match self {
            RowKind::Opening => f.write_str("opening"),
            RowKind::Adding => f.write_str("adding"),
            RowKind::Matching => f.write_str("match"),
            RowKind::Writing => f.write_str("writing"),
            RowKind::Reading => f.write_str("reading"),
        }
    }
}
