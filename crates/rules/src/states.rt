// What the words of an actor say, as specs/Terms.antt names it.

// Its state.
pub const FREE: u64 = 0;

pub const RUNNABLE: u64 = 1;

pub const RUNS: u64 = 2;

pub const WAITS: u64 = 3;

// Why it is runnable: a message that it waited for, or the end of its wait; 0 where it was spawned or has yielded.
pub const MESSAGE: u64 = 1;

pub const TIMEOUT: u64 = 2;
