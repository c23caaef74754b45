// The numbers of document 01 that stand for a limit, as specs/Limits.antt names them: two that are equal today are two names.

// The most that each pool can have.
pub const MOST_ACTORS: usize = 256;

pub const MOST_MAILS: usize = 256;

pub const MOST_DATAS: usize = 256;

pub const MOST_LINKS: usize = 128;

pub const MOST_MONITORS: usize = 128;

pub const MOST_TIMERS: usize = 64;

// Buses, the values on one, the seats of one; the most reads after which a value ends, and the longest age, in milliseconds.
pub const MOST_BUSES: usize = 32;

pub const MOST_VALUES: usize = 16;

pub const MOST_SEATS: usize = 32;

pub const MOST_READS: usize = 32;

pub const LONGEST_AGE: u64 = (1 << 31) - 1;

// An id is age × factor + slot.
pub const ACTOR_FACTOR: u64 = 256;

pub const TIMER_FACTOR: u64 = 64;

pub const MONITOR_FACTOR: u64 = 128;

// The age of a slot's last use.
pub const OLDEST: u64 = 1 << 40;

// A data entry: a header and the payload.
pub const ENTRY_BYTES: usize = 256;

pub const HEADER_BYTES: usize = 4;

pub const PAYLOAD_MOST: usize = 252;

// A filter that takes any sender, class, tag.
pub const ANY_SENDER: u64 = u64::MAX;

pub const ANY_CLASS: u64 = 15;

pub const ANY_TAG: u64 = 134_217_727;

// The last level of priority, and how many there are.
pub const LAST_LEVEL: u64 = 3;

pub const LEVELS: u64 = LAST_LEVEL + 1;

// The clock at its end; the longest delay, interval or step; the shortest interval; the longest wait, in milliseconds; the latest due time and deadline; no time is later.
pub const CLOCK_END: u64 = 1 << 62;

pub const LONGEST: u64 = (1 << 32) - 1;

pub const SHORTEST_INTERVAL: u64 = 100;

pub const LONGEST_WAIT: i64 = 86_400_000;

pub const DUE_END: u64 = (1 << 62) + (1 << 32);

pub const DEADLINE_END: u64 = (1 << 62) + (1 << 41);

pub const ALWAYS: u64 = u64::MAX;

// The last exit reason.
pub const LAST_REASON: u64 = 65_535;

// The most words that a table needs.
pub const WORDS_MOST: usize = 8_192;
