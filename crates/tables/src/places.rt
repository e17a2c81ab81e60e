// Where fields lie: in the control record, in a node's record, and in each of its segments.

// ---- the control record

pub const N: usize = 0; // samples of a trace

pub const CAPACITY: usize = 1;

pub const LEAF_SIZE: usize = 2;

pub const TRACE_COUNT: usize = 3;

pub const NODE_COUNT: usize = 4;

pub const CONTROL_FIELDS: usize = 5;

// ---- a node's record

pub const KIND: usize = 0; // 0 a leaf, 1 an inner node by sum, 2 an inner node by scatter

pub const SEGMENTS: usize = 1; // the number of segments

pub const FIRST: usize = 2; // a leaf's first trace number; an inner node's left child

pub const RIGHT: usize = 3; // an inner node's right child

pub const RUN_FIRST: usize = 4; // the first sample of an inner node's test

pub const RUN_LAST: usize = 5; // its last sample

pub const THRESHOLD: usize = 6;

pub const HEAD: usize = 7; // places before the segments

pub const SEGMENT: usize = 5; // places of a segment

pub const RECORD_PLACES: usize = 87; // a head, and 16 segments

// ---- a segment, whose first place is its right end

pub const LEAST_SUM: usize = 1;

pub const GREATEST_SUM: usize = 2;

pub const LEAST_SCATTER: usize = 3;

pub const GREATEST_SCATTER: usize = 4;
