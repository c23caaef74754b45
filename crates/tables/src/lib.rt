// The tables of the runtime in two lent buffers: capacities, columns, and what the calls do to a column.
#![tactic(auto)]

pub mod columns;
pub mod free;
pub mod layout;
pub mod limits;
pub mod lists;
pub mod payload;
pub mod sizes;
pub mod words;

// The capacities of the six pools.
#[derive(Clone, Copy)]
pub struct Caps {
    pub actors: usize,
    pub mails: usize,
    pub datas: usize,
    pub links: usize,
    pub monitors: usize,
    pub timers: usize,
}
