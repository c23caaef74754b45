// How many words a column has where no capacity says so, and how many columns there are for each entry of a pool, as specs/Sizes.antt has it.
use crate::columns::{
    ACTORS, BUS_SIZE, LINK_ONE, MAIL_FREE, MAIL_OWNER, REST, SEAT, SENDER, SPARE, STATE,
    TIMER_OWNER, WATCHER,
};
use crate::limits::{MOST_BUSES, MOST_SEATS};
use pools::bits::WORD_BITS;

// Sizes that no capacity changes: the spare words of the head; the words of a column of free bits, and the bits in them; the seats of all buses.
pub const SPARES: usize = 4;

pub const BIT_WORDS: usize = 4;

pub const COLUMN_BITS: usize = BIT_WORDS * WORD_BITS;

pub const ALL_SEATS: usize = MOST_BUSES * MOST_SEATS;

// How many columns there are of each size: a group ends where the next one begins.
pub const HEADS: usize = SPARE - ACTORS;

pub const BITS: usize = BUS_SIZE - MAIL_FREE;

pub const PER_BUS: usize = SEAT - BUS_SIZE;

pub const SEATINGS: usize = STATE - SEAT;

pub const PER_ACTOR: usize = MAIL_OWNER - STATE;

pub const PER_MAIL: usize = SENDER - MAIL_OWNER;

pub const PER_DATA: usize = LINK_ONE - SENDER;

pub const PER_LINK: usize = WATCHER - LINK_ONE;

pub const PER_MONITOR: usize = TIMER_OWNER - WATCHER;

pub const PER_TIMER: usize = REST - TIMER_OWNER;

// The words that every table has, whatever its capacities.
pub const FIXED: usize = HEADS
    + SPARES
    + BITS * BIT_WORDS
    + PER_BUS * MOST_BUSES
    + SEATINGS * ALL_SEATS;
