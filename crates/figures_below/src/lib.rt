// Records compared with the figures of the traces below each node, these traces standing in one array.
#![tactic(auto)]

pub mod figures; // figures of the traces below a node, from samples or from a child's record
pub mod nodes; // records compared, node by node
