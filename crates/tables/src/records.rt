// Fields of a node's record, and records as parts of the table. Where node j's record lies, only the functions on the table know.

ghost use Rattle.std.specs.Prelude.{◌≡◌, ◌+◌, ◌*◌, ◌≤◌, ◌<◌, length};
ghost use Rattle.dstree.specs.Measures.{most_nodes};
ghost use Rattle.tables.specs.Layout.{record_places};
ghost use Rattle.tables.specs.Tables.{record_of};
ghost use Rattle.tables.specs.View.{small_of, scatter_in, small_at, value_at};

use crate::places::RECORD_PLACES;

// A field that holds a small number. What is no 16-bit number reads as 65,536, which no rule accepts.
pub fn small(v: i64) -> usize
    ensures { result ≡ small_of v }
{
    if (0..=65535).contains(&v) {
        v as usize
    } else {
        65536
    }
}

// A field that holds a scatter. Below zero it reads as 2^63, above every limit.
pub fn scatter(v: i64) -> u64
    ensures { result ≡ scatter_in v }
{
    u64::try_from(v).unwrap_or(1 << 63)
}

// ---- one record

// What a field holds.
pub fn value_at(record: &[i64], place: usize) -> i64
    requires { (length «record».now ≡ record_places) × (place < record_places) }
    ensures { result ≡ value_at «record».now place }
{
    record[place]
}

// What a field holds, as a small number.
pub fn small_at(record: &[i64], place: usize) -> usize
    requires { (length «record».now ≡ record_places) × (place < record_places) }
    ensures { result ≡ small_at «record».now place }
{
    small(record[place])
}

// ---- the table. A part that is written through is lent from `record_start` to `record_end`, since a contract can say nothing of a part
// that is handed back

// Where node j's record starts, and the place behind it. Nothing else computes where a record lies.
pub fn record_start(j: usize) -> usize
    requires { j ≤ most_nodes }
    ensures { result ≡ j * record_places }
{
    j * RECORD_PLACES
}

pub fn record_end(j: usize) -> usize
    requires { j ≤ most_nodes }
    ensures { result ≡ j * record_places + record_places }
{
    (j + 1) * RECORD_PLACES
}

// Node j's record.
pub fn record_at(nodes: &[i64], j: usize) -> &[i64]
    requires { (j * record_places + record_places ≤ length nodes.now) × (j ≤ most_nodes) }
    ensures { result.now ≡ record_of nodes.now j }
{
    let a = record_start(j);
    let e = record_end(j);
    &nodes[a..e]
}

// One of its fields, as a small number.
pub fn node_small(nodes: &[i64], j: usize, place: usize) -> usize
    requires { (j * record_places + record_places ≤ length nodes.now) × (j ≤ most_nodes) × (place < record_places) }
    ensures { result ≡ small_at (record_of nodes.now j) place }
{
    small_at(record_at(nodes, j), place)
}
