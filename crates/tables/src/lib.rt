// The lent tables: refusals, the judges that calls share, access to fields and records, and the loops that zero and copy.
#![tactic(auto)]

pub mod places; // where fields lie
pub mod numbers; // numbers made wider
pub mod answers; // refusals by number and place
pub mod control; // the control record, and what lengths and measures refuse
pub mod lent; // the six tables, lent to read
pub mod records; // fields of a node's record, and records as parts of the table
pub mod kinds; // what a node is
pub mod walk; // along a leaf's list of traces
pub mod runs; // stored traces, and figures on a run of samples
pub mod loops; // zeroing and copying
pub mod given; // samples that a caller gives
pub mod label_table; // codes and serials, in their places

// A word of the table of refusals, document 01's and then document 02's. A torn block has its number for a place.
#[derive(Clone, Copy, Debug, PartialEq, Eq)]
pub enum Refusal {
    Measure,
    ShortTable,
    Spoiled,
    WrongTrace,
    Full,
    Empty,
    ShortTrail,
    SheetLength,
    TornBlock(u64),
    BadSheet,
    BadK,
    BadRecording,
    LooseRecord,
    BadBatch,
    SampleRange,
    BadEdges,
    UnlikeLibraries,
    NoLeaves,
    CrossedRange,
}

// The lengths of the six tables, as a call is lent them.
#[derive(Clone, Copy, Debug, PartialEq, Eq)]
pub struct Lengths {
    pub control: usize,
    pub samples: usize,
    pub nodes: usize,
    pub links: usize,
    pub work: usize,
    pub labels: usize,
}

// A library's measures, at full width, so that none wraps into its range.
#[derive(Clone, Copy, Debug, PartialEq, Eq)]
pub struct Measures {
    pub n: u64,
    pub capacity: u64,
    pub leaf_size: u64,
}
