// Traces: the writer of a record, the record of each call, and the comparison with one.
#![tactic(auto)]

pub mod kind;
pub mod kinds;
pub mod numbers;
pub mod writer;
