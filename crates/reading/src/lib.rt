// What the soundness test and the calls both read of the buffers, each reader once.
#![tactic(auto)]

pub mod filters;
pub mod headers;
pub mod names;
