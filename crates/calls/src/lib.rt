// Each call of the runtime on buffers that hold a sound one: the answer and the state of its rule.
#![tactic(auto)]

pub mod buses;
pub mod ids;
pub mod messages;
pub mod receiving;
pub mod running;
pub mod sleeping;
pub mod ties;
pub mod timers;
