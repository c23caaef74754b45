// Buses: bus, publish, subscribe, unsubscribe, read.
ghost use Rattle.std.specs.Prelude.{◌≡◌, ◌≤◌, ◌<◌, length, not, take};
ghost use Rattle.tables.specs.Columns.{LENGTH};
ghost use Rattle.tables.specs.Limits.{MOST-SEATS, PAYLOAD-MOST};
ghost use Rattle.tables.specs.State.{at, Of, Room, RoomWith, Reads};
ghost use Rattle.rules.specs.declared.refusals.Refusal.TheVariants.{Unknown};
ghost use Rattle.rules.specs.Answers.{copied_of, done_of, made_of};
ghost use Rattle.rules.specs.Buses.{bad_bus, is_bus, oldest_unread, seat_of, sits, unread_length, value_of};
ghost use Rattle.rules.specs.Sound.{Ready};
ghost use Rattle.rules.specs.Calls.{bus_entry, publish_entry, read_entry, ruled, subscribe_entry, unsubscribe_entry};
ghost use Rattle.rules.specs.Host.{copy_in, Gives, Onto};
ghost use Rattle.rules.specs.Terms.{runner};
ghost use Rattle.calls.specs.Parts.{after_tests, unless};

use crate::ids::{among, running};
use crate::messages::payload;
use actions::buses::{make_bus, seat_for, seat_of, sit_down, sits};
use actions::leaving::stand_up;
use actions::room::data_for;
use actions::values::{broadcast, bus_full, oldest_unread, read_off, value_at};
use rules::refusals::Refusal;
use tables::Caps;
use tables::columns::{BUS_SEATS, BUSES, ISSUED, LENGTH};
use tables::limits::{LONGEST_AGE, MOST_BUSES, MOST_READS, MOST_SEATS, MOST_VALUES, PAYLOAD_MOST};
use tables::payload::copy;
use tables::words::get;

// ---- bus
// What a bus is made for: so many entries and subscribers; an entry ends after a number of reads, or at an age in milliseconds, 0 for neither.
#[derive(Clone, Copy)]
pub struct Settings {
    pub entries: u64,
    pub subscribers: u64,
    pub reads: u64,
    pub age: u64,
}

impl Settings {
    // Is one of the four out of range?
    fn are_bad(self) -> bool
        ensures { result ≡ bad_bus self.entries self.subscribers self.reads self.age }
    {
        let values = self.entries == 0 || (MOST_VALUES as u64) < self.entries;
        let seats = self.subscribers == 0 || (MOST_SEATS as u64) < self.subscribers;
        let ends = (MOST_READS as u64) < self.reads || LONGEST_AGE < self.age;
        values || seats || ends
    }
}

// A new bus: its number. Malformed: a setting is bad; no room: there are as many as there can be.
pub fn bus_in(t: &mut [u64], p: &[u8], k: Caps, settings: Settings) -> Result<u64, Refusal>
    requires { Ready k t.old p.now }
    ensures { Gives (ruled (bus_entry settings.entries settings.subscribers settings.reads settings.age)) k t.old p.now (made_of result) t.new p.now }
{
    if settings.are_bad() {
        return Err(Refusal::Malformed);
    }
    let b = get(t, p, k, BUSES, 0);
    if MOST_BUSES as u64 <= b {
        return Err(Refusal::NoRoom);
    }
    let Settings {
        entries,
        subscribers,
        reads,
        age,
    } = settings;
    make_bus(t, p, k, entries, subscribers, reads, age);
    Ok(b)
}

// Is b one of the buses that are made?
fn is_bus(t: &[u64], p: &[u8], k: Caps, b: u64) -> bool
    requires { Room k t.now p.now }
    ensures { Reads k (λ s. is_bus s b) t.now p.now result }
{
    b < get(t, p, k, BUSES, 0)
}

// ---- publish
// A payload is published on bus b.
// Not now: nobody runs; malformed: it is too long; unknown: no such bus; no room: the bus is not full, and no data entry is free.
pub fn publish_in(
    t: &mut [u64],
    p: &mut [u8],
    k: Caps,
    b: u64,
    payload: &[u8],
) -> Result<(), Refusal>
    requires { Ready k t.old p.old }
    ensures { Gives (ruled (publish_entry b payload.now)) k t.old p.old (done_of result) t.new p.new }
{
    running(t, p, k)?;
    if PAYLOAD_MOST < payload.len() {
        return Err(Refusal::Malformed);
    }
    if !is_bus(t, p, k, b) {
        return Err(Refusal::Unknown);
    }
    let full = bus_full(t, p, k, b);
    let d = data_for(t, p, k);
    if !full && k.datas as u64 <= d {
        return Err(Refusal::NoRoom);
    }
    broadcast(t, p, k, b, payload);
    Ok(())
}

// ---- subscribe, unsubscribe
// The running actor is subscribed to bus b. Not now: nobody runs; malformed: it is subscribed already; unknown: no such bus; no room: no seat.
pub fn subscribe_in(t: &mut [u64], p: &[u8], k: Caps, b: u64) -> Result<(), Refusal>
    requires { Ready k t.old p.now }
    ensures { Gives (ruled (subscribe_entry b)) k t.old p.now (done_of result) t.new p.now }
{
    let me = running(t, p, k)?;
    if sits(t, p, k, b, me) {
        return Err(Refusal::Malformed);
    }
    if !is_bus(t, p, k, b) {
        return Err(Refusal::Unknown);
    }
    let n = among(seat_for(t, p, k, b), get(t, p, k, BUS_SEATS, b))?;
    sit_down(t, p, k, b, n, me);
    Ok(())
}

// The seat of a subscriber to bus b, which is slot a written one up. Unknown: it has none.
fn seat(t: &[u64], p: &[u8], k: Caps, b: u64, a: u64) -> Result<u64, Refusal>
    requires { Room k t.now p.now }
    ensures { Reads k (λ s. unless (not (sits s b a)) Unknown (seat_of s b a)) t.now p.now result }
{
    let n = seat_of(t, p, k, b, a);
    if n < MOST_SEATS as u64 {
        return Ok(n);
    }
    Err(Refusal::Unknown)
}

// A subscription of the running actor ends. Not now: nobody runs; unknown: it has none to bus b.
pub fn unsubscribe_in(t: &mut [u64], p: &[u8], k: Caps, b: u64) -> Result<(), Refusal>
    requires { Ready k t.old p.now }
    ensures { Gives (ruled (unsubscribe_entry b)) k t.old p.now (done_of result) t.new p.now }
{
    let me = running(t, p, k)?;
    let n = seat(t, p, k, b, me)?;
    stand_up(t, p, k, b, n);
    Ok(())
}

// ---- read
// How long is the oldest value of bus b that slot a, written one up, has not read? It is the j-th; 0 where there is none.
fn unread_length(t: &[u64], p: &[u8], k: Caps, b: u64, a: u64, j: u64) -> u64
    requires { Room k t.now p.now × Reads k (λ s. oldest_unread s b a) t.now p.now j }
    ensures { Reads k (λ s. unread_length s b a) t.now p.now result }
{
    if j < get(t, p, k, ISSUED, 0) {
        let d = value_at(t, p, k, j);
        return get(t, p, k, LENGTH, d);
    }
    0
}

// The payload of data entry d is copied to the front of a lent slice. How long is it?
fn copy_value(t: &[u64], p: &[u8], k: Caps, d: u64, out: &mut [u8]) -> u64
    requires { RoomWith k (λ s. (d < k.datas) × (at s LENGTH d ≤ PAYLOAD-MOST) × (at s LENGTH d ≤ length out.old)) t.now p.now }
    ensures { Of k (λ s. take result out.new ≡ value_of s d) t.now p.now × Onto result out.old out.new }
{
    let value = payload(t, p, k, d);
    copy(out, 0, value);
    value.len() as u64
}

// The running actor, in seat n of bus b, reads the j-th value, for which there is room in a lent slice. Nothing: there is none.
fn read_value(
    t: &mut [u64],
    p: &mut [u8],
    k: Caps,
    b: u64,
    n: u64,
    j: u64,
    out: &mut [u8],
) -> Result<u64, Refusal>
    requires { Ready k t.old p.old × Of k (λ s. (n < MOST-SEATS) × (n ≡ seat_of s b (runner s)) × (j ≡ oldest_unread s b (runner s)) × (unread_length s b (runner s) ≤ length out.old)) t.old p.old }
    ensures { Gives (after_tests 3 (read_entry b (length out.old))) k t.old p.old (copy_in (copied_of result) out.new) t.new p.new × Onto (copied_of result).length out.old out.new }
{
    if get(t, p, k, ISSUED, 0) <= j {
        return Err(Refusal::Nothing);
    }
    let d = value_at(t, p, k, j);
    let length = copy_value(t, p, k, d, out);
    read_off(t, p, k, b, n, j);
    Ok(length)
}

// The oldest value of bus b that the running actor has not read is copied to the front of a lent slice: its length.
// Not now: nobody runs; malformed: the slice is too short; unknown: no subscription; nothing: nothing new.
pub fn read_in(t: &mut [u64], p: &mut [u8], k: Caps, b: u64, out: &mut [u8]) -> Result<u64, Refusal>
    requires { Ready k t.old p.old }
    ensures { Gives (ruled (read_entry b (length out.old))) k t.old p.old (copy_in (copied_of result) out.new) t.new p.new × Onto (copied_of result).length out.old out.new }
{
    let me = running(t, p, k)?;
    let j = oldest_unread(t, p, k, b, me);
    if (out.len() as u64) < unread_length(t, p, k, b, me, j) {
        return Err(Refusal::Malformed);
    }
    let n = seat(t, p, k, b, me)?;
    read_value(t, p, k, b, n, j, out)
}
