// The columns by number, as specs/Columns.antt names them. docs/LAYOUT.md says what each holds.

// The head, one word each.
pub const ACTORS: usize = 0;

pub const MAILS: usize = 1;

pub const DATAS: usize = 2;

pub const LINKS: usize = 3;

pub const MONITORS: usize = 4;

pub const TIMERS: usize = 5;

pub const CLOCK: usize = 6;

pub const RUNNING: usize = 7;

pub const QUEUED: usize = 8;

pub const ARRIVED: usize = 9;

pub const ISSUED: usize = 10;

pub const BUSES: usize = 11;

// The spare words of the head: one column.
pub const SPARE: usize = 12;

// The free bits, four words each.
pub const MAIL_FREE: usize = 13;

pub const DATA_FREE: usize = 14;

// A word for each bus.
pub const BUS_SIZE: usize = 15;

pub const BUS_SEATS: usize = 16;

pub const BUS_READS: usize = 17;

pub const BUS_AGE: usize = 18;

// A word for each seat of each bus, those of a bus side by side.
pub const SEAT: usize = 19;

// A word for each actor slot.
pub const STATE: usize = 20;

pub const PRIORITY: usize = 21;

pub const REASON: usize = 22;

pub const AGE: usize = 23;

pub const HAND: usize = 24;

pub const WANT_SENDER: usize = 25;

pub const WANT_CLASS: usize = 26;

pub const WANT_TAG: usize = 27;

pub const DEADLINE: usize = 28;

pub const QUEUE: usize = 29;

// A word for each mailbox entry.
pub const MAIL_OWNER: usize = 30;

pub const MAIL_DATA: usize = 31;

pub const ARRIVAL: usize = 32;

// A word for each data entry; the last four are for those that hold a bus's value.
pub const SENDER: usize = 33;

pub const LENGTH: usize = 34;

pub const VALUE_BUS: usize = 35;

pub const READERS: usize = 36;

pub const PUBLISHED: usize = 37;

pub const ISSUE: usize = 38;

// A word for each link.
pub const LINK_ONE: usize = 39;

pub const LINK_TWO: usize = 40;

// A word for each monitor.
pub const WATCHER: usize = 41;

pub const WATCHED: usize = 42;

pub const MONITOR_AGE: usize = 43;

// A word for each timer.
pub const TIMER_OWNER: usize = 44;

pub const TIMER_AGE: usize = 45;

pub const DUE: usize = 46;

pub const INTERVAL: usize = 47;

// The words past the needed ones; the payload area, a byte each; the bytes past it.
pub const REST: usize = 48;

pub const PAYLOAD: usize = 49;

pub const PAST: usize = 50;
