// The host calls. Each tests the buffers, refuses unsound ones with 7, and else does what its rule says. None asks anything of its caller.
ghost use Rattle.std.specs.Prelude.{◌≡◌, cond, length};
ghost use Rattle.ledger.specs.Call.Answer.{plain};
ghost use Rattle.ledger.specs.Call.Call.{op};
ghost use Rattle.ledger.specs.Call.Op.{advance, after, bus, cancel, demonitor, every, exit, link, monitor, next, notify, publish, read, receive, report, shown, spawn, subscribe, unlink, unsubscribe, yield};
ghost use Rattle.tables.specs.State.{caps_of};
ghost use Rattle.rules.specs.declared.refusals.Refusal.TheVariants.{Unsound};
ghost use Rattle.rules.specs.Rule.{test};
ghost use Rattle.rules.specs.Sound.{sound_rule};
ghost use Rattle.rules.specs.Host.{Onto, copy_in};
ghost use Rattle.rules.specs.Run.{say_advanced, say_copy, say_ended, say_made, say_received, say_report, say_shown, say_turn};
ghost use Rattle.rules.specs.Story.{Meets};

use calls::buses::{Settings, bus_in, publish_in, read_in, subscribe_in, unsubscribe_in};
use calls::messages::{notify_in, shown_in};
use calls::receiving::{Wanted, receive_in};
use calls::running::{next_in, report_in, spawn_in, yield_in};
use calls::ties::{demonitor_in, link_in, monitor_in, unlink_in};
use calls::timers::{after_in, cancel_in, every_in};
use endings::advance::advance_in;
use endings::exit::exit_in;
use rules::refusals::{Refusal, done};
use rules::{Advanced, Copied, Ended, Made, Received, Report, Shown, Turn};
use sound::sound;
use tables::Caps;
use tables::layout::caps_of;

// The capacities of the runtime that two buffers hold. Unsound: they hold no sound one.
pub(crate) fn caps_if_sound(t: &[u64], p: &[u8]) -> Result<Caps, Refusal>
    ensures { result ≡ cond (test (sound_rule t.now p.now)) (Ok (caps_of t.now)) (Err Unsound) }
{
    if sound(t, p) {
        return Ok(caps_of(t));
    }
    Err(Refusal::Unsound)
}

// A new actor at a priority from 0 (first) to 3: 0 and its id. 1: no such priority; 2: no slot.
pub fn fg_spawn(t: &mut [u64], p: &mut [u8], priority: u64) -> Made
    ensures { Meets (op (spawn priority)) t.old p.old (say_made result) t.new p.new }
{
    match caps_if_sound(t, p) {
        Ok(k) => Made::from(spawn_in(t, p, k, priority)),
        Err(e) => Made::from(Err(e)),
    }
}

// The actor whose turn it is now runs: 0, its id and why it was runnable. 4: one runs already; 6: none is runnable, with the time to sleep.
pub fn fg_next(t: &mut [u64], p: &mut [u8]) -> Turn
    ensures { Meets (op next) t.old p.old (say_turn result) t.new p.new }
{
    match caps_if_sound(t, p) {
        Ok(k) => Turn::from(next_in(t, p, k)),
        Err(e) => Turn::from(Err(e)),
    }
}

// The running actor goes to the tail of its level. 4: nobody runs.
pub fn fg_yield(t: &mut [u64], p: &mut [u8]) -> u64
    ensures { Meets (op yield) t.old p.old (plain result) t.new p.new }
{
    match caps_if_sound(t, p) {
        Ok(k) => done(yield_in(t, p, k)),
        Err(e) => done(Err(e)),
    }
}

// A message to an actor. 4: nobody runs; 1: such a tag or length is malformed; 3: no such actor; 2: no room.
pub fn fg_notify(t: &mut [u64], p: &mut [u8], target: u64, tag: u64, payload: &[u8]) -> u64
    ensures { Meets (op (notify target tag payload.now)) t.old p.old (plain result) t.new p.new }
{
    match caps_if_sound(t, p) {
        Ok(k) => done(notify_in(t, p, k, target, tag, payload)),
        Err(e) => done(Err(e)),
    }
}

// The first message that the filter matches comes to hand: 0 and what it is.
// 4: nobody runs; 1: malformed; 5: nothing, and no wait; 6: the caller waits.
pub fn fg_receive(
    t: &mut [u64],
    p: &mut [u8],
    sender: u64,
    class: u64,
    tag: u64,
    wait: i64,
) -> Received
    ensures { Meets (op (receive sender class tag wait)) t.old p.old (say_received result) t.new p.new }
{
    let wanted = Wanted { sender, class, tag };
    match caps_if_sound(t, p) {
        Ok(k) => Received::from(receive_in(t, p, k, wanted, wait)),
        Err(e) => Received::from(Err(e)),
    }
}

// Where the payload in hand lies in the payload area. 4: nobody runs; 3: nothing in hand.
pub fn fg_shown(t: &mut [u64], p: &mut [u8]) -> Shown
    ensures { Meets (op shown) t.old p.old (say_shown result) t.new p.new }
{
    match caps_if_sound(t, p) {
        Ok(k) => Shown::from(shown_in(t, p, k)),
        Err(e) => Shown::from(Err(e)),
    }
}

// A one-shot timer: 0 and its id. 4: nobody runs; 1: such a delay is malformed; 2: no room.
pub fn fg_after(t: &mut [u64], p: &mut [u8], delay: u64) -> Made
    ensures { Meets (op (after delay)) t.old p.old (say_made result) t.new p.new }
{
    match caps_if_sound(t, p) {
        Ok(k) => Made::from(after_in(t, p, k, delay)),
        Err(e) => Made::from(Err(e)),
    }
}

// A periodic timer: 0 and its id. 4: nobody runs; 1: such an interval is malformed; 2: no room.
pub fn fg_every(t: &mut [u64], p: &mut [u8], interval: u64) -> Made
    ensures { Meets (op (every interval)) t.old p.old (say_made result) t.new p.new }
{
    match caps_if_sound(t, p) {
        Ok(k) => Made::from(every_in(t, p, k, interval)),
        Err(e) => Made::from(Err(e)),
    }
}

// A timer of the caller ends. 4: nobody runs; 3: no such timer of the caller.
pub fn fg_cancel(t: &mut [u64], p: &mut [u8], id: u64) -> u64
    ensures { Meets (op (cancel id)) t.old p.old (plain result) t.new p.new }
{
    match caps_if_sound(t, p) {
        Ok(k) => done(cancel_in(t, p, k, id)),
        Err(e) => done(Err(e)),
    }
}

// A link with an actor; one that is there already stays. 4: nobody runs; 1: oneself; 3: no such actor; 2: no room.
pub fn fg_link(t: &mut [u64], p: &mut [u8], partner: u64) -> u64
    ensures { Meets (op (link partner)) t.old p.old (plain result) t.new p.new }
{
    match caps_if_sound(t, p) {
        Ok(k) => done(link_in(t, p, k, partner)),
        Err(e) => done(Err(e)),
    }
}

// A link is taken back. 4: nobody runs; 3: there is none.
pub fn fg_unlink(t: &mut [u64], p: &mut [u8], partner: u64) -> u64
    ensures { Meets (op (unlink partner)) t.old p.old (plain result) t.new p.new }
{
    match caps_if_sound(t, p) {
        Ok(k) => done(unlink_in(t, p, k, partner)),
        Err(e) => done(Err(e)),
    }
}

// The caller watches an actor: 0 and the id of the monitor. 4: nobody runs; 1: oneself; 3: no such actor; 2: no room.
pub fn fg_monitor(t: &mut [u64], p: &mut [u8], target: u64) -> Made
    ensures { Meets (op (monitor target)) t.old p.old (say_made result) t.new p.new }
{
    match caps_if_sound(t, p) {
        Ok(k) => Made::from(monitor_in(t, p, k, target)),
        Err(e) => Made::from(Err(e)),
    }
}

// A monitor of the caller is taken back. 4: nobody runs; 3: no such monitor of the caller.
pub fn fg_demonitor(t: &mut [u64], p: &mut [u8], id: u64) -> u64
    ensures { Meets (op (demonitor id)) t.old p.old (plain result) t.new p.new }
{
    match caps_if_sound(t, p) {
        Ok(k) => done(demonitor_in(t, p, k, id)),
        Err(e) => done(Err(e)),
    }
}

// The running actor ends: 0, and how many notices were sent and lost. 4: nobody runs; 1: such a reason is malformed.
pub fn fg_exit(t: &mut [u64], p: &mut [u8], reason: u64) -> Ended
    ensures { Meets (op (exit reason)) t.old p.old (say_ended result) t.new p.new }
{
    match caps_if_sound(t, p) {
        Ok(k) => Ended::from(exit_in(t, p, k, reason)),
        Err(e) => Ended::from(Err(e)),
    }
}

// The clock goes on by some microseconds: 0, and how many timers fired. 1: malformed.
pub fn fg_advance(t: &mut [u64], p: &mut [u8], micros: u64) -> Advanced
    ensures { Meets (op (advance micros)) t.old p.old (say_advanced result) t.new p.new }
{
    match caps_if_sound(t, p) {
        Ok(k) => Advanced::from(advance_in(t, p, k, micros)),
        Err(e) => Advanced::from(Err(e)),
    }
}

// The free entries of the six pools.
pub fn fg_report(t: &mut [u64], p: &mut [u8]) -> Report
    ensures { Meets (op report) t.old p.old (say_report result) t.new p.new }
{
    match caps_if_sound(t, p) {
        Ok(k) => Report::from(Ok(report_in(t, p, k))),
        Err(e) => Report::from(Err(e)),
    }
}

// A new bus, for so many entries and subscribers; an entry ends after a number of reads, or at an age in milliseconds, 0 for neither:
// 0 and its number, from 0 on.
// 1: such a bus is malformed; 2: there are 32.
pub fn fg_bus(
    t: &mut [u64],
    p: &mut [u8],
    entries: u64,
    subscribers: u64,
    reads: u64,
    age: u64,
) -> Made
    ensures { Meets (op (bus entries subscribers reads age)) t.old p.old (say_made result) t.new p.new }
{
    let settings = Settings {
        entries,
        subscribers,
        reads,
        age,
    };
    match caps_if_sound(t, p) {
        Ok(k) => Made::from(bus_in(t, p, k, settings)),
        Err(e) => Made::from(Err(e)),
    }
}

// A payload for all who are subscribed to a bus now; where the bus is full, its oldest entry ends first.
// 4: nobody runs; 1: such a length is malformed; 3: no such bus; 2: no room.
pub fn fg_publish(t: &mut [u64], p: &mut [u8], bus: u64, payload: &[u8]) -> u64
    ensures { Meets (op (publish bus payload.now)) t.old p.old (plain result) t.new p.new }
{
    match caps_if_sound(t, p) {
        Ok(k) => done(publish_in(t, p, k, bus, payload)),
        Err(e) => done(Err(e)),
    }
}

// The caller subscribes to a bus: it can read what is published from now on.
// 4: nobody runs; 1: it is subscribed already; 3: no such bus; 2: the bus has as many as it can have.
pub fn fg_subscribe(t: &mut [u64], p: &mut [u8], bus: u64) -> u64
    ensures { Meets (op (subscribe bus)) t.old p.old (plain result) t.new p.new }
{
    match caps_if_sound(t, p) {
        Ok(k) => done(subscribe_in(t, p, k, bus)),
        Err(e) => done(Err(e)),
    }
}

// The caller's subscription to a bus ends. 4: nobody runs; 3: there is none.
pub fn fg_unsubscribe(t: &mut [u64], p: &mut [u8], bus: u64) -> u64
    ensures { Meets (op (unsubscribe bus)) t.old p.old (plain result) t.new p.new }
{
    match caps_if_sound(t, p) {
        Ok(k) => done(unsubscribe_in(t, p, k, bus)),
        Err(e) => done(Err(e)),
    }
}

// The oldest payload of a bus that the caller has not read is copied to the front of a slice: 0 and its length.
// 4: nobody runs; 1: the slice is too short, and the payload stays unread; 3: not subscribed; 5: nothing new.
pub fn fg_read(t: &mut [u64], p: &mut [u8], bus: u64, out: &mut [u8]) -> Copied
    ensures meets { Meets (op (read bus (length out.old))) t.old p.old (say_copy (copy_in result out.new)) t.new p.new }
    ensures onto { Onto result.length out.old out.new }
{
    match caps_if_sound(t, p) {
        Ok(k) => Copied::from(read_in(t, p, k, bus, out)),
        Err(e) => Copied::from(Err(e)),
    }
}
