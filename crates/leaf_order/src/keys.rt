// The key that a node waits by, and what is past a limit.
ghost use Rattle.std.specs.Prelude.{◌≡◌, ◌+◌, ◌*◌, ◌≤◌, ◌<◌, max, length};
ghost use Rattle.segment.specs.Stored.{samples_of};
ghost use Rattle.tables.specs.Layout.{record_places};
ghost use Rattle.tables.specs.Tables.{record_of};
ghost use Rattle.query.specs.Bounded.{Bounded, bound_by};
ghost use Rattle.best_first.specs.NodeKeys.{key_base, key_of, bounds_below};
ghost use Rattle.leaf_order.specs.Handed.{is_past};

use prefixes::Summed;

pub const KEY_BASE: u64 = 8192; // a key is bound * KEY_BASE + number

// The key of node j, whose parent has the bound `above`. That bound is one that a key holds, and so a child's key fits too.
pub fn node_key(nodes: &[i64], j: usize, above: u64, query: &Summed) -> u64
    requires { (j * record_places + record_places ≤ length nodes.now) × (j < key_base) × (above < bounds_below)
        × Bounded (record_of nodes.now j) (length query.now.trace.now) }
    ensures { result ≡ key_of (max (bound_by (samples_of query.now.trace.now) (record_of nodes.now j)) above) j }
{
    let record = tables::records::record_at(nodes, j);
    let own = query::bound::own_bound(record, query);
    own.max(above) * KEY_BASE + j as u64
}

// The bound is above the limit, if there is one. An equal bound is not.
pub fn is_past(bound: u64, limit: Option<u64>) -> bool
    ensures { result ≡ is_past limit bound }
{
    match limit {
        Some(limit) => limit < bound,
        None => false,
    }
}
