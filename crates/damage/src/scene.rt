// A small runtime in which there is one of everything.
use crate::places::SMALL;
use runtime::host::{
    fg_advance, fg_bus, fg_every, fg_exit, fg_link, fg_monitor, fg_next, fg_notify, fg_publish,
    fg_read, fg_receive, fg_spawn, fg_subscribe, fg_yield,
};
use runtime::start::fg_start;
use tables::Caps;
use tables::limits::{ANY_SENDER, ANY_TAG};

// The last tag that a notification may have.
const LAST_TAG: u64 = ANY_TAG - 1;

// Starts a runtime of these capacities.
pub fn start(t: &mut [u64], p: &mut [u8], k: Caps) {
    fg_start(
        t,
        p,
        k.actors as u64,
        k.mails as u64,
        k.datas as u64,
        k.links as u64,
        k.monitors as u64,
        k.timers as u64,
    );
}

// A fresh runtime at 1,000 µs, and the actors 256, which runs first, to 260.
fn begun(t: &mut [u64], p: &mut [u8]) {
    start(t, p, SMALL);
    fg_advance(t, p, 1000);
    for priority in [0, 1, 2, 2, 1] {
        fg_spawn(t, p, priority);
    }
}

// 256 waits until 6,000 µs for tag 9; 257 runs and watches 260.
fn waited(t: &mut [u64], p: &mut [u8]) {
    fg_next(t, p);
    fg_receive(t, p, ANY_SENDER, 0, 9, 5);
    fg_next(t, p);
    fg_monitor(t, p, 260);
}

// 260 runs and ends; 257 runs again.
fn ended(t: &mut [u64], p: &mut [u8]) {
    fg_yield(t, p);
    fg_next(t, p);
    fg_exit(t, p, 3);
    fg_next(t, p);
}

// 257: two links, a monitor, a timer.
fn tied(t: &mut [u64], p: &mut [u8]) {
    fg_link(t, p, 256);
    fg_link(t, p, 258);
    fg_monitor(t, p, 256);
    fg_every(t, p, 2000);
}

// 257 has a message of its own in hand; 256 and 258 have one each in their mailboxes.
fn told(t: &mut [u64], p: &mut [u8]) {
    fg_notify(t, p, 257, 7, b"hello");
    fg_receive(t, p, ANY_SENDER, 0, 7, 0);
    fg_notify(t, p, 256, 7, b"abc");
    fg_notify(t, p, 258, LAST_TAG, b"xy");
}

// Two buses, of three entries and two seats, and of one each; 257 sits on the first one, and has read one of its two values.
fn aired(t: &mut [u64], p: &mut [u8]) {
    fg_bus(t, p, 3, 2, 0, 0);
    fg_bus(t, p, 1, 1, 0, 0);
    fg_subscribe(t, p, 0);
    fg_publish(t, p, 0, b"20");
    fg_publish(t, p, 0, b"21");
    fg_read(t, p, 0, &mut [0; 2]);
}

// Data entries: 0 a notice for slot 1, 1 in its hand, 2 for slot 0, 3 for slot 2, 4 a tick for slot 1, 5 and 6 values of bus 0, 7
// free. The mailbox entries 0 to 3 hold data 0, 2, 3 and 4; slots 2 and 3 are queued; slot 1 is in seat 0 of bus 0. The clock is
// at 3,000 µs.
pub fn bring(t: &mut [u64], p: &mut [u8]) {
    begun(t, p);
    waited(t, p);
    ended(t, p);
    tied(t, p);
    told(t, p);
    fg_advance(t, p, 2000);
    aired(t, p);
}
