// The rules of "Well-formed tables" on records in the table: each record in use fits by itself, and a child's ends include its parent's.
#![tactic(auto)]

pub mod kept; // a child's ends include its parent's
pub mod twins; // the records of two children with the same ends
pub mod nodes; // records as parts of the table, and all records in use
