// Advance and exit on buffers that hold a sound runtime: the answer and the state of their rules.
#![tactic(auto)]

pub mod advance;
pub mod exit;
pub mod leaving;
pub mod notices;
mod order;
mod partners;
