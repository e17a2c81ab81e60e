// What a node is, by the number in its record.

ghost use Rattle.std.specs.Prelude.{◌≡◌, ◌<◌, ◌+◌, ◌*◌, ◌≤◌, MatchOption, MatchBool, length};
ghost use Rattle.dstree.specs.Measures.{most_nodes};
ghost use Rattle.tables.specs.Layout.{record_places, kind_place};
ghost use Rattle.tables.specs.Tables.{record_of};
ghost use Rattle.tables.specs.View.{small_at};
ghost use Rattle.tables.specs.Kinds.{number_of};

use crate::places::KIND;
use crate::records::{node_small, record_at, small_at};

// A leaf, or an inner node by what its test compares.
#[derive(Clone, Copy, Debug, PartialEq, Eq)]
pub enum Kind {
    Leaf,
    BySum,
    ByScatter,
}

// A record's kind. In altered tables the number can be another, which is no kind.
pub fn kind_at(record: &[i64]) -> Option<Kind>
    requires { length «record».now ≡ record_places }
    ensures { MatchOption result (2 < small_at «record».now kind_place) (λ kind. small_at «record».now kind_place ≡ number_of kind) }
{
    match small_at(record, KIND) {
        0 => Some(Kind::Leaf),
        1 => Some(Kind::BySum),
        2 => Some(Kind::ByScatter),
        _ => None,
    }
}

// Node j's kind.
pub fn node_kind(nodes: &[i64], j: usize) -> Option<Kind>
    requires { (j * record_places + record_places ≤ length nodes.now) × (j ≤ most_nodes) }
    ensures { MatchOption result (2 < small_at (record_of nodes.now j) kind_place)
        (λ kind. small_at (record_of nodes.now j) kind_place ≡ number_of kind) }
{
    kind_at(record_at(nodes, j))
}

// Node j is a leaf. Its number tells: by `node_kind` and `==` a loop over nodes took twice as long.
pub fn is_leaf(nodes: &[i64], j: usize) -> bool
    requires { (j * record_places + record_places ≤ length nodes.now) × (j ≤ most_nodes) }
    ensures { MatchBool result (small_at (record_of nodes.now j) kind_place ≡ 0) (1 ≤ small_at (record_of nodes.now j) kind_place) }
{
    node_small(nodes, j, KIND) == 0
}
