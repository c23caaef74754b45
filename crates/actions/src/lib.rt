// The actions that the runtime's calls are made of, each as crate rules defines it.
#![tactic(auto)]

pub mod airing;
pub mod buses;
pub mod dropping;
pub mod leaving;
pub mod links;
pub mod masks;
pub mod messages;
pub mod monitors;
pub mod queue;
pub mod room;
pub mod running;
pub mod timers;
pub mod times;
pub mod values;
