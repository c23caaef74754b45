// The calls of the host. Crate runtime_c exports them to C, but for `show`, which returns a part of the payload area.
#![tactic(auto)]

pub mod host;
pub mod show;
pub mod start;
