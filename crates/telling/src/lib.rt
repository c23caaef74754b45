// What a trace tells, in words.
#![tactic(auto)]

pub mod aimed;
pub mod buffers;
pub mod buses;
pub mod ends;
pub mod exits;
pub mod full;
pub mod input;
pub mod left;
pub mod messages;
pub mod named;
pub mod record;
pub mod six;
pub mod starts;
pub mod states;
pub mod view;
pub mod words;
