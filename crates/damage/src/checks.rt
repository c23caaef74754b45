// A break for each rule of soundness, on the runtime of scene.rt. Slot 0 waits, 1 runs, 2 and 3 are queued, 4 is free.
use crate::breaks::Break;
use crate::breaks::Damage::{Byte, Two, Word};
use records::exit::EXIT_BYTES;
use records::tick::TICK_BYTES;
use tables::columns::{
    AGE, ARRIVAL, ARRIVED, BUS_AGE, BUS_READS, BUS_SEATS, BUS_SIZE, BUSES, CLOCK, DATA_FREE,
    DEADLINE, DUE, HAND, INTERVAL, ISSUE, ISSUED, LENGTH, LINK_ONE, LINK_TWO, MAIL_DATA, MAIL_FREE,
    MAIL_OWNER, MONITOR_AGE, PRIORITY, PUBLISHED, QUEUE, QUEUED, READERS, REASON, RUNNING, SEAT,
    SENDER, SPARE, STATE, TIMER_AGE, TIMER_OWNER, VALUE_BUS, WANT_CLASS, WANT_SENDER, WANT_TAG,
    WATCHED, WATCHER,
};
use tables::limits::{
    ANY_TAG, CLOCK_END, DEADLINE_END, DUE_END, LEVELS, LONGEST, LONGEST_AGE, MOST_BUSES,
    MOST_READS, MOST_SEATS, MOST_VALUES, OLDEST, PAYLOAD_MOST, SHORTEST_INTERVAL,
};
use tables::sizes::SPARES;

// The last spare word of the head.
const LAST_SPARE: usize = SPARES - 1;

// One more than the largest age.
const TOO_OLD: u64 = OLDEST + 1;

// A seat of bus 0 in which nobody sits, one that it has not, and a seat of bus 2, which is not made.
const EMPTY_SEAT: usize = 1;

const NO_SEAT: usize = 2;

const SEAT_OF_NO_BUS: usize = 2 * MOST_SEATS;

// Readers: the one in seat 0 has read it and still may; those in the seats 0 and 1 still may.
const BOTH: u64 = 0x1_0000_0001;

const ONE_TOO_MANY: u64 = 0x3_0000_0000;

// The head: the clock, who runs, how long the lists are, the spare words.
pub fn head() -> &'static [Break] {
    &[
        ("clock past its end", Word(CLOCK, 0, CLOCK_END + 1)),
        ("running: no such slot", Word(RUNNING, 0, 6)),
        ("running: none named", Word(RUNNING, 0, 0)),
        ("running: another named", Word(RUNNING, 0, 3)),
        ("queue longer than its column", Word(QUEUED, 0, 6)),
        ("arrivals longer than their column", Word(ARRIVED, 0, 6)),
        ("row of values longer than its column", Word(ISSUED, 0, 9)),
        ("33 buses", Word(BUSES, 0, MOST_BUSES as u64 + 1)),
        ("spare word, first", Word(SPARE, 0, 1)),
        ("spare word, last", Word(SPARE, LAST_SPARE, 1)),
    ]
}

// What an actor's words may be.
pub fn actors() -> &'static [Break] {
    &[
        ("state", Word(STATE, 4, 4)),
        ("priority", Word(PRIORITY, 2, LEVELS)),
        ("reason", Word(REASON, 2, 3)),
        ("age", Word(AGE, 3, TOO_OLD)),
        ("age 0 in use", Word(AGE, 3, 0)),
        ("hand: no such data", Word(HAND, 3, 9)),
        ("free actor with a priority", Word(PRIORITY, 4, 1)),
        ("free actor with a hand", Two((HAND, 4, 2), (HAND, 1, 0))),
        ("reason of one that runs", Word(REASON, 1, 1)),
        ("reason of one that waits", Word(REASON, 0, 1)),
        ("two running", Word(STATE, 4, 2)),
    ]
}

// A wait: its filter and its deadline.
pub fn waits() -> &'static [Break] {
    &[
        ("unused filter: sender", Word(WANT_SENDER, 1, 1)),
        ("unused filter: class", Word(WANT_CLASS, 2, 1)),
        ("unused filter: tag", Word(WANT_TAG, 4, 1)),
        ("unused deadline", Word(DEADLINE, 2, 4000)),
        ("deadline at the clock", Word(DEADLINE, 0, 3000)),
        ("deadline too late", Word(DEADLINE, 0, DEADLINE_END + 1)),
        ("filter: class 5", Word(WANT_CLASS, 0, 5)),
        ("filter: class 14", Word(WANT_CLASS, 0, 14)),
        ("filter: class 16", Word(WANT_CLASS, 0, 16)),
        ("filter: tag", Word(WANT_TAG, 0, ANY_TAG + 1)),
        ("filter that matches", Word(WANT_TAG, 0, 7)),
        ("filter that matches any", Word(WANT_TAG, 0, ANY_TAG)),
    ]
}

// The queue holds 2 and 3.
pub fn queue() -> &'static [Break] {
    &[
        ("queue: no such slot", Word(QUEUE, 1, 5)),
        ("queue: a word past its count", Word(QUEUE, 2, 1)),
        ("queued twice", Two((QUEUED, 0, 3), (QUEUE, 2, 2))),
        (
            "runnable and not queued",
            Two((QUEUED, 0, 1), (QUEUE, 1, 0)),
        ),
        ("waiting and queued", Word(QUEUED, 0, 3)),
        ("free and queued", Two((QUEUED, 0, 3), (QUEUE, 2, 4))),
    ]
}

// The mailbox entries 0 to 3 are in use, and 4 is free.
pub fn mailboxes() -> &'static [Break] {
    &[
        ("mailbox of a dead actor", Word(MAIL_OWNER, 2, 5)),
        ("mailbox of no slot", Word(MAIL_OWNER, 2, 6)),
        ("mailbox of nobody", Word(MAIL_OWNER, 2, 0)),
        ("mailbox: no such data", Word(MAIL_DATA, 2, 9)),
        ("mailbox: no data", Word(MAIL_DATA, 2, 0)),
        ("free mailbox with an owner", Word(MAIL_OWNER, 4, 1)),
        ("free mailbox with data", Word(MAIL_DATA, 4, 9)),
        ("mailbox in use and free", Word(MAIL_FREE, 0, 17)),
        ("mailbox neither in use nor free", Word(MAIL_FREE, 0, 0)),
        (
            "mailbox: free bit past the capacity",
            Word(MAIL_FREE, 0, 48),
        ),
        (
            "mailbox: last free bit",
            Word(MAIL_FREE, 3, 0x8000_0000_0000_0000),
        ),
    ]
}

// The arrivals are 0, 1, 2, 3.
pub fn arrivals() -> &'static [Break] {
    &[
        ("arrival: no such entry", Word(ARRIVAL, 3, 5)),
        ("arrival: a word past the count", Word(ARRIVAL, 4, 1)),
        ("arrival twice", Word(ARRIVED, 0, 5)),
        (
            "arrival of a free entry",
            Two((ARRIVED, 0, 5), (ARRIVAL, 4, 4)),
        ),
        (
            "entry that did not arrive",
            Two((ARRIVED, 0, 3), (ARRIVAL, 3, 0)),
        ),
    ]
}

// Data entry 1 is in a hand; 0, 2, 3 and 4 are in mailboxes; 5 and 6 are a bus's; 7 is free.
pub fn data() -> &'static [Break] {
    &[
        ("data in a hand and a mailbox", Word(HAND, 3, 4)),
        ("data in two hands", Word(HAND, 3, 2)),
        ("data in two mailboxes", Word(MAIL_DATA, 2, 3)),
        ("data of nobody", Word(HAND, 1, 0)),
        ("data in a hand and on a bus", Word(HAND, 3, 6)),
        ("data in a mailbox and on a bus", Word(MAIL_DATA, 2, 6)),
        ("free data in a hand", Word(HAND, 3, 8)),
        ("data neither in use nor free", Word(DATA_FREE, 0, 0)),
        ("data: free bit past the capacity", Word(DATA_FREE, 0, 384)),
        (
            "data: last free bit",
            Word(DATA_FREE, 3, 0x8000_0000_0000_0000),
        ),
        ("free data with a sender", Word(SENDER, 7, 257)),
        ("free data with a length", Word(LENGTH, 7, 1)),
        ("free data: first byte", Byte(7, 0, 1)),
        ("free data: last byte", Byte(7, 255, 1)),
    ]
}

// Data entry 0 is an exit notice, 3 a notification of two bytes with the last tag, 4 a tick.
pub fn messages() -> &'static [Break] {
    &[
        ("header: class 2", Byte(0, 3, 0x28)),
        ("header: class 5", Byte(0, 3, 0x58)),
        ("header: mark in class 0", Byte(3, 3, 0x0f)),
        ("header: no mark in class 4", Byte(0, 3, 0x40)),
        ("header: tag for any", Byte(3, 0, 0xff)),
        ("header: tag in class 4", Byte(0, 0, 1)),
        ("header: tag in class 3", Byte(4, 2, 1)),
        ("length above 252", Word(LENGTH, 3, PAYLOAD_MOST as u64 + 1)),
        ("length of a tick", Word(LENGTH, 4, TICK_BYTES as u64 + 1)),
        (
            "length of an exit notice",
            Word(LENGTH, 0, EXIT_BYTES as u64 + 1),
        ),
        ("length of an old tick", Word(LENGTH, 4, 8)),
        ("length of an old exit notice", Word(LENGTH, 0, 14)),
        ("sender of a later age", Word(SENDER, 3, 513)),
        ("sender of age 0", Word(SENDER, 3, 1)),
        ("sender of no slot", Word(SENDER, 3, 261)),
        ("sender 0 in class 0", Word(SENDER, 3, 0)),
        ("sender 0 in class 4", Word(SENDER, 0, 0)),
        ("byte past the payload", Byte(3, 6, 1)),
        ("last byte past the payload", Byte(3, 255, 1)),
    ]
}

// Links 0 and 1 join slot 1 with 0 and with 2; 2 is free.
pub fn links() -> &'static [Break] {
    &[
        ("link: first end dead", Word(LINK_ONE, 1, 5)),
        ("link: second end dead", Word(LINK_TWO, 1, 5)),
        ("link: no second end", Word(LINK_TWO, 1, 0)),
        ("link to itself", Word(LINK_TWO, 1, 2)),
        ("free link with an end", Word(LINK_TWO, 2, 1)),
        ("pair twice", Word(LINK_TWO, 1, 1)),
        (
            "pair twice, the other way",
            Two((LINK_ONE, 2, 3), (LINK_TWO, 2, 2)),
        ),
    ]
}

// Monitor 0 is slot 1's, on slot 0; 1 is free.
pub fn monitors() -> &'static [Break] {
    &[
        ("monitor: watcher dead", Word(WATCHER, 0, 5)),
        ("monitor: watched dead", Word(WATCHED, 0, 5)),
        ("monitor: nobody watched", Word(WATCHED, 0, 0)),
        ("monitor on itself", Word(WATCHED, 0, 2)),
        ("free monitor with one watched", Word(WATCHED, 1, 1)),
        ("monitor: age 0 in use", Word(MONITOR_AGE, 0, 0)),
        ("monitor: age", Word(MONITOR_AGE, 0, TOO_OLD)),
        ("free monitor: age", Word(MONITOR_AGE, 1, TOO_OLD)),
    ]
}

// Timer 0 is slot 1's, periodic; 1 is free.
pub fn timers() -> &'static [Break] {
    &[
        ("timer of a dead actor", Word(TIMER_OWNER, 0, 5)),
        ("timer of no slot", Word(TIMER_OWNER, 0, 6)),
        ("timer: age 0 in use", Word(TIMER_AGE, 0, 0)),
        ("timer: age", Word(TIMER_AGE, 0, TOO_OLD)),
        ("timer: due too late", Word(DUE, 0, DUE_END + 1)),
        ("timer: interval too long", Word(INTERVAL, 0, LONGEST + 1)),
        (
            "timer: interval too short",
            Word(INTERVAL, 0, SHORTEST_INTERVAL - 1),
        ),
        ("free timer with a due time", Word(DUE, 1, 1)),
        ("free timer with an interval", Word(INTERVAL, 1, 1)),
    ]
}

// Buses 0 and 1 are made; nobody sits on 1, and nothing stands there.
pub fn buses() -> &'static [Break] {
    &[
        ("bus made and not counted", Word(BUSES, 0, 1)),
        ("bus counted and not made", Word(BUSES, 0, 3)),
        ("bus: no entries", Word(BUS_SIZE, 1, 0)),
        ("bus: 17 entries", Word(BUS_SIZE, 1, MOST_VALUES as u64 + 1)),
        ("bus: no subscribers", Word(BUS_SEATS, 1, 0)),
        (
            "bus: 33 subscribers",
            Word(BUS_SEATS, 1, MOST_SEATS as u64 + 1),
        ),
        ("bus: 33 reads", Word(BUS_READS, 1, MOST_READS as u64 + 1)),
        ("bus: age", Word(BUS_AGE, 1, LONGEST_AGE + 1)),
        ("no bus, with entries", Word(BUS_SIZE, 2, 1)),
        ("no bus, with subscribers", Word(BUS_SEATS, 2, 1)),
        ("no bus, with reads", Word(BUS_READS, 31, 1)),
        ("no bus, with an age", Word(BUS_AGE, 31, 1)),
        ("bus: more values than entries", Word(BUS_SIZE, 0, 1)),
    ]
}

// Slot 1 sits in the first of two seats of bus 0.
pub fn seats() -> &'static [Break] {
    &[
        ("subscriber dead", Word(SEAT, EMPTY_SEAT, 5)),
        ("subscriber: no such slot", Word(SEAT, EMPTY_SEAT, 6)),
        ("subscriber twice", Word(SEAT, EMPTY_SEAT, 2)),
        ("subscriber past the seats", Word(SEAT, NO_SEAT, 3)),
        ("subscriber of no bus", Word(SEAT, SEAT_OF_NO_BUS, 3)),
    ]
}

// The values of bus 0 are in data 5, which slot 1 has read, and in 6, which it may still read. Data 1 is in a hand.
pub fn values() -> &'static [Break] {
    &[
        ("value: bus not made", Word(VALUE_BUS, 5, 3)),
        ("value: bus far off", Word(VALUE_BUS, 5, OLDEST)),
        ("value of no bus", Word(VALUE_BUS, 6, 0)),
        ("message with a bus", Word(VALUE_BUS, 1, 2)),
        ("free data with a bus", Word(VALUE_BUS, 7, 2)),
        ("message with readers", Word(READERS, 1, 1)),
        ("message with a time", Word(PUBLISHED, 1, 1)),
        ("value of a later time", Word(PUBLISHED, 6, 3001)),
        ("value read by one who still may", Word(READERS, 6, BOTH)),
        ("value that nobody may read", Word(READERS, 6, ONE_TOO_MANY)),
        ("value of one who left", Word(SEAT, 0, 0)),
    ]
}

// The row of values is 5, 6.
pub fn row() -> &'static [Break] {
    &[
        ("row of values: no such data", Word(ISSUE, 1, 9)),
        ("row of values: none", Word(ISSUE, 1, 0)),
        ("row of values: a word past the count", Word(ISSUE, 2, 9)),
        ("row of values: a message", Word(ISSUE, 1, 1)),
        (
            "row of values: one twice",
            Two((ISSUED, 0, 3), (ISSUE, 2, 6)),
        ),
        (
            "row of values: one left out",
            Two((ISSUED, 0, 1), (ISSUE, 1, 0)),
        ),
    ]
}

// What was published has two bytes, header 0 and no sender.
pub fn published() -> &'static [Break] {
    &[
        ("value: tag", Byte(5, 0, 1)),
        ("value: class 4", Byte(5, 3, 0x48)),
        ("value with a sender", Word(SENDER, 5, 257)),
        (
            "value: length above 252",
            Word(LENGTH, 5, PAYLOAD_MOST as u64 + 1),
        ),
        ("value: byte past the payload", Byte(5, 6, 1)),
        ("value: last byte", Byte(5, 255, 1)),
    ]
}

// All of them, a table for each part of the state.
pub fn all() -> [&'static [Break]; 16] {
    [
        head(),
        actors(),
        waits(),
        queue(),
        mailboxes(),
        arrivals(),
        data(),
        messages(),
        links(),
        monitors(),
        timers(),
        buses(),
        seats(),
        values(),
        row(),
        published(),
    ]
}
