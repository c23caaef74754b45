// The calls of the host for C (include/foamgangway.h): each export is the library's function, and promises what that does.
#![tactic(auto)]

ghost use Rattle.std.specs.Prelude.{length};
ghost use Rattle.ledger.specs.Call.Answer.{plain};
ghost use Rattle.ledger.specs.Call.Call.{op, start};
ghost use Rattle.ledger.specs.Call.Op.{advance, after, bus, cancel, demonitor, every, exit, link, monitor, next, notify, publish, read, receive, report, shown, spawn, subscribe, unlink, unsubscribe, yield};
ghost use Rattle.rules.specs.Host.{Onto, copy_in};
ghost use Rattle.rules.specs.Run.{say_advanced, say_copy, say_ended, say_made, say_received, say_report, say_shown, say_turn};
ghost use Rattle.rules.specs.Story.{Meets};

use rules::{Advanced, Copied, Ended, Made, Received, Report, Shown, Turn};
use runtime::{host, start};

// A fresh runtime of these capacities in the two buffers, whatever they held. 1: capacities out of range, or a buffer too short.
#[unsafe(no_mangle)]
pub extern "C" fn fg_start(
    t: &mut [u64],
    p: &mut [u8],
    actors: u64,
    mailboxes: u64,
    data_entries: u64,
    links: u64,
    monitors: u64,
    timers: u64,
) -> u64
    ensures { Meets (start (record { actors = actors; mails = mailboxes; datas = data_entries; links = links; monitors = monitors; timers = timers })) t.old p.old (plain result) t.new p.new }
{
    start::fg_start(
        t,
        p,
        actors,
        mailboxes,
        data_entries,
        links,
        monitors,
        timers,
    )
}

// A new actor at a priority from 0 (first) to 3: 0 and its id. 1: no such priority; 2: no slot.
#[unsafe(no_mangle)]
pub extern "C" fn fg_spawn(t: &mut [u64], p: &mut [u8], priority: u64) -> Made
    ensures { Meets (op (spawn priority)) t.old p.old (say_made result) t.new p.new }
{
    host::fg_spawn(t, p, priority)
}

// The actor whose turn it is now runs: 0, its id and why it was runnable. 4: one runs already; 6: none is runnable, with the time to sleep.
#[unsafe(no_mangle)]
pub extern "C" fn fg_next(t: &mut [u64], p: &mut [u8]) -> Turn
    ensures { Meets (op next) t.old p.old (say_turn result) t.new p.new }
{
    host::fg_next(t, p)
}

// The running actor goes to the tail of its level. 4: nobody runs.
#[unsafe(no_mangle)]
pub extern "C" fn fg_yield(t: &mut [u64], p: &mut [u8]) -> u64
    ensures { Meets (op yield) t.old p.old (plain result) t.new p.new }
{
    host::fg_yield(t, p)
}

// A message to an actor. 4: nobody runs; 1: such a tag or length is malformed; 3: no such actor; 2: no room.
#[unsafe(no_mangle)]
pub extern "C" fn fg_notify(
    t: &mut [u64],
    p: &mut [u8],
    target: u64,
    tag: u64,
    payload: &[u8],
) -> u64
    ensures { Meets (op (notify target tag payload.now)) t.old p.old (plain result) t.new p.new }
{
    host::fg_notify(t, p, target, tag, payload)
}

// The first message that the filter matches comes to hand: 0 and what it is. 4: nobody runs; 1: malformed; 5: nothing, and no wait; 6: the caller waits.
#[unsafe(no_mangle)]
pub extern "C" fn fg_receive(
    t: &mut [u64],
    p: &mut [u8],
    sender: u64,
    class: u64,
    tag: u64,
    wait: i64,
) -> Received
    ensures { Meets (op (receive sender class tag wait)) t.old p.old (say_received result) t.new p.new }
{
    host::fg_receive(t, p, sender, class, tag, wait)
}

// Where the payload in hand lies in the payload area. 4: nobody runs; 3: nothing in hand.
#[unsafe(no_mangle)]
pub extern "C" fn fg_shown(t: &mut [u64], p: &mut [u8]) -> Shown
    ensures { Meets (op shown) t.old p.old (say_shown result) t.new p.new }
{
    host::fg_shown(t, p)
}

// A one-shot timer: 0 and its id. 4: nobody runs; 1: such a delay is malformed; 2: no room.
#[unsafe(no_mangle)]
pub extern "C" fn fg_after(t: &mut [u64], p: &mut [u8], delay: u64) -> Made
    ensures { Meets (op (after delay)) t.old p.old (say_made result) t.new p.new }
{
    host::fg_after(t, p, delay)
}

// A periodic timer: 0 and its id. 4: nobody runs; 1: such an interval is malformed; 2: no room.
#[unsafe(no_mangle)]
pub extern "C" fn fg_every(t: &mut [u64], p: &mut [u8], interval: u64) -> Made
    ensures { Meets (op (every interval)) t.old p.old (say_made result) t.new p.new }
{
    host::fg_every(t, p, interval)
}

// A timer of the caller ends. 4: nobody runs; 3: no such timer of the caller.
#[unsafe(no_mangle)]
pub extern "C" fn fg_cancel(t: &mut [u64], p: &mut [u8], id: u64) -> u64
    ensures { Meets (op (cancel id)) t.old p.old (plain result) t.new p.new }
{
    host::fg_cancel(t, p, id)
}

// A link with an actor; one that is there already stays. 4: nobody runs; 1: oneself; 3: no such actor; 2: no room.
#[unsafe(no_mangle)]
pub extern "C" fn fg_link(t: &mut [u64], p: &mut [u8], partner: u64) -> u64
    ensures { Meets (op (link partner)) t.old p.old (plain result) t.new p.new }
{
    host::fg_link(t, p, partner)
}

// A link is taken back. 4: nobody runs; 3: there is none.
#[unsafe(no_mangle)]
pub extern "C" fn fg_unlink(t: &mut [u64], p: &mut [u8], partner: u64) -> u64
    ensures { Meets (op (unlink partner)) t.old p.old (plain result) t.new p.new }
{
    host::fg_unlink(t, p, partner)
}

// The caller watches an actor: 0 and the id of the monitor. 4: nobody runs; 1: oneself; 3: no such actor; 2: no room.
#[unsafe(no_mangle)]
pub extern "C" fn fg_monitor(t: &mut [u64], p: &mut [u8], target: u64) -> Made
    ensures { Meets (op (monitor target)) t.old p.old (say_made result) t.new p.new }
{
    host::fg_monitor(t, p, target)
}

// A monitor of the caller is taken back. 4: nobody runs; 3: no such monitor of the caller.
#[unsafe(no_mangle)]
pub extern "C" fn fg_demonitor(t: &mut [u64], p: &mut [u8], id: u64) -> u64
    ensures { Meets (op (demonitor id)) t.old p.old (plain result) t.new p.new }
{
    host::fg_demonitor(t, p, id)
}

// The running actor ends: 0, and how many notices were sent and lost. 4: nobody runs; 1: such a reason is malformed.
#[unsafe(no_mangle)]
pub extern "C" fn fg_exit(t: &mut [u64], p: &mut [u8], reason: u64) -> Ended
    ensures { Meets (op (exit reason)) t.old p.old (say_ended result) t.new p.new }
{
    host::fg_exit(t, p, reason)
}

// The clock goes on by some microseconds: 0, and how many timers fired. 1: malformed.
#[unsafe(no_mangle)]
pub extern "C" fn fg_advance(t: &mut [u64], p: &mut [u8], micros: u64) -> Advanced
    ensures { Meets (op (advance micros)) t.old p.old (say_advanced result) t.new p.new }
{
    host::fg_advance(t, p, micros)
}

// The free entries of the six pools.
#[unsafe(no_mangle)]
pub extern "C" fn fg_report(t: &mut [u64], p: &mut [u8]) -> Report
    ensures { Meets (op report) t.old p.old (say_report result) t.new p.new }
{
    host::fg_report(t, p)
}

// A new bus, for so many entries and subscribers; an entry ends after a number of reads, or at an age in milliseconds, 0 for neither: 0 and its number, from 0 on. 1: such a bus is malformed; 2: there are 32.
#[unsafe(no_mangle)]
pub extern "C" fn fg_bus(
    t: &mut [u64],
    p: &mut [u8],
    entries: u64,
    subscribers: u64,
    reads: u64,
    age: u64,
) -> Made
    ensures { Meets (op (bus entries subscribers reads age)) t.old p.old (say_made result) t.new p.new }
{
    host::fg_bus(t, p, entries, subscribers, reads, age)
}

// A payload for all who are subscribed to a bus now; where the bus is full, its oldest entry ends first. 4: nobody runs; 1: such a length is malformed; 3: no such bus; 2: no room.
#[unsafe(no_mangle)]
pub extern "C" fn fg_publish(t: &mut [u64], p: &mut [u8], bus: u64, payload: &[u8]) -> u64
    ensures { Meets (op (publish bus payload.now)) t.old p.old (plain result) t.new p.new }
{
    host::fg_publish(t, p, bus, payload)
}

// The caller subscribes to a bus: it can read what is published from now on. 4: nobody runs; 1: it is subscribed already; 3: no such bus; 2: the bus has as many as it can have.
#[unsafe(no_mangle)]
pub extern "C" fn fg_subscribe(t: &mut [u64], p: &mut [u8], bus: u64) -> u64
    ensures { Meets (op (subscribe bus)) t.old p.old (plain result) t.new p.new }
{
    host::fg_subscribe(t, p, bus)
}

// The caller's subscription to a bus ends. 4: nobody runs; 3: there is none.
#[unsafe(no_mangle)]
pub extern "C" fn fg_unsubscribe(t: &mut [u64], p: &mut [u8], bus: u64) -> u64
    ensures { Meets (op (unsubscribe bus)) t.old p.old (plain result) t.new p.new }
{
    host::fg_unsubscribe(t, p, bus)
}

// The oldest payload of a bus that the caller has not read is copied to the front of a slice: 0 and its length. 4: nobody runs; 1: the slice is too short, and the payload stays unread; 3: not subscribed; 5: nothing new.
#[unsafe(no_mangle)]
pub extern "C" fn fg_read(t: &mut [u64], p: &mut [u8], bus: u64, out: &mut [u8]) -> Copied
    ensures meets { Meets (op (read bus (length out.old))) t.old p.old (say_copy (copy_in result out.new)) t.new p.new }
    ensures onto { Onto result.length out.old out.new }
{
    host::fg_read(t, p, bus, out)
}
