// Where each column lies in the table.
ghost use Rattle.std.specs.Prelude.{◌≡◌, ◌+◌, ◌*◌, ◌<◌, ◌≤◌, get_or};
ghost use Rattle.tables.specs.Columns.{REST};
ghost use Rattle.tables.specs.Limits.{SAFE};
ghost use Rattle.tables.specs.State.{caps_of, needed, needed_p, start, size, InRange};

use crate::Caps;
use crate::columns::{
    ACTORS, BUS_SIZE, DATAS, LINK_ONE, LINKS, MAIL_FREE, MAIL_OWNER, MAILS, MONITORS, SEAT, SENDER,
    SPARE, STATE, TIMER_OWNER, TIMERS, WATCHER,
};
use crate::limits::{ENTRY_BYTES, MOST_BUSES};
use crate::sizes::{
    ALL_SEATS, BIT_WORDS, BITS, FIXED, HEADS, PER_ACTOR, PER_BUS, PER_DATA, PER_LINK, PER_MAIL,
    PER_MONITOR, PER_TIMER, SPARES,
};
use std::ops::Range;

// A column: its first word, and how many words it has.
#[derive(Clone, Copy)]
pub struct Place {
    pub from: usize,
    pub size: usize,
}

// Word i; 0 past the end.
pub fn word(t: &[u64], i: usize) -> usize
    ensures { result ≡ get_or t.now i 0 }
{
    t.get(i).copied().unwrap_or(0) as usize
}

// The capacities that the head of the table states.
pub fn caps_of(t: &[u64]) -> Caps
    ensures { result ≡ caps_of t.now }
{
    Caps {
        actors: word(t, ACTORS),
        mails: word(t, MAILS),
        datas: word(t, DATAS),
        links: word(t, LINKS),
        monitors: word(t, MONITORS),
        timers: word(t, TIMERS),
    }
}

// How many words the capacities need.
pub fn words_needed(k: Caps) -> usize
    requires { InRange k }
    ensures { result ≡ needed k }
{
    FIXED
        + k.actors * PER_ACTOR
        + k.mails * PER_MAIL
        + k.datas * PER_DATA
        + k.links * PER_LINK
        + k.monitors * PER_MONITOR
        + k.timers * PER_TIMER
}

// How many bytes the capacities need.
pub fn bytes_needed(k: Caps) -> usize
    requires { InRange k }
    ensures { result ≡ needed_p k }
{
    ENTRY_BYTES * k.datas
}

// The first word of the free bits, of the buses, and of the seats.
const BITS_FROM: usize = HEADS + SPARES;

const BUSES_FROM: usize = BITS_FROM + BITS * BIT_WORDS;

const SEATS_FROM: usize = BUSES_FROM + PER_BUS * MOST_BUSES;

// The i-th of columns of one size, the first of which lies at a place.
fn nth(from: usize, size: usize, i: usize) -> Place
    requires { (from < SAFE) × (size < SAFE) × (i < SAFE) }
    ensures { (result.from ≡ from + i * size) × (result.size ≡ size) }
{
    Place {
        from: from + i * size,
        size,
    }
}

// Where column c lies: the columns of one size lie side by side, and each group of them begins where the one before it ends.
pub fn place_of(k: Caps, c: usize) -> Place
    requires { InRange k × (c < REST) }
    ensures { (result.from ≡ start k c) × (result.size ≡ size k c) }
{
    if c < SPARE {
        return nth(0, 1, c);
    }
    if c < MAIL_FREE {
        return nth(HEADS, SPARES, c - SPARE);
    }
    if c < BUS_SIZE {
        return nth(BITS_FROM, BIT_WORDS, c - MAIL_FREE);
    }
    if c < SEAT {
        return nth(BUSES_FROM, MOST_BUSES, c - BUS_SIZE);
    }
    if c < STATE {
        return nth(SEATS_FROM, ALL_SEATS, c - SEAT);
    }
    if c < MAIL_OWNER {
        return nth(FIXED, k.actors, c - STATE);
    }
    let mails = FIXED + k.actors * PER_ACTOR;
    if c < SENDER {
        return nth(mails, k.mails, c - MAIL_OWNER);
    }
    let datas = mails + k.mails * PER_MAIL;
    if c < LINK_ONE {
        return nth(datas, k.datas, c - SENDER);
    }
    let links = datas + k.datas * PER_DATA;
    if c < WATCHER {
        return nth(links, k.links, c - LINK_ONE);
    }
    let monitors = links + k.links * PER_LINK;
    if c < TIMER_OWNER {
        return nth(monitors, k.monitors, c - WATCHER);
    }
    nth(
        monitors + k.monitors * PER_MONITOR,
        k.timers,
        c - TIMER_OWNER,
    )
}

// The words of column c, by their places in the table.
pub(crate) fn words_of(k: Caps, c: usize) -> Range<usize>
    requires { InRange k × (c < REST) }
    ensures { (result.start ≡ start k c) × (result.end ≡ start k c + size k c) × (result.end ≤ needed k) }
{
    let place = place_of(k, c);
    place.from..place.from + place.size
}
