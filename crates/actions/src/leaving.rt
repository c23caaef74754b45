// A subscriber leaves a bus: it may read nothing of it any more, and its seat is free.
ghost use Rattle.std.specs.Prelude.{◌≡◌, cond, suc, ◌+◌, ◌≤◌, ◌<◌, eqb, length, replicate};
ghost use Rattle.pools.specs.Bits.{cleared};
ghost use Rattle.tables.specs.Columns.{BUSES, READERS, VALUE-BUS};
ghost use Rattle.tables.specs.Limits.{MOST-BUSES, MOST-SEATS, SAFE};
ghost use Rattle.tables.specs.State.{at, head, poke, Room, RoomWith, Of, Makes, Does};
ghost use Rattle.rules.specs.Buses.{forget, leave_buses, sits, stand_up};
ghost use Rattle.actions.specs.Leaving.{GivenUp, forget_by, gave_up, give_up, give_up_on, given_up, noted, strike, strike_by};

use crate::buses::{seat_at, seat_of};
use pools::bits::cleared;
use tables::Caps;
use tables::columns::{BUSES, READERS, SEAT, VALUE_BUS};
use tables::limits::{MOST_BUSES, MOST_SEATS};
use tables::words::{get, put};

// ---- one bus
// The one in seat n may not read data entry d any more.
fn strike(t: &mut [u64], p: &[u8], k: Caps, n: u64, d: u64)
    requires { Room k t.old p.now × (n < MOST-SEATS) }
    ensures { Makes k (strike n d) t.old p.now t.new p.now }
{
    let mask = get(t, p, k, READERS, d);
    put(t, p, k, READERS, d, cleared(mask, MOST_SEATS + n as usize));
}

// The same, if that holds a value of bus b.
fn forget_one(t: &mut [u64], p: &[u8], k: Caps, b: u64, n: u64, d: u64)
    requires { Room k t.old p.now × (b < SAFE) × (n < MOST-SEATS) }
    ensures { Makes k (λ s. cond (eqb (at s VALUE-BUS d) (suc b)) (poke s READERS d (cleared (at s READERS d) (MOST-SEATS + n))) s) t.old p.now t.new p.now }
{
    if get(t, p, k, VALUE_BUS, d) == b + 1 {
        strike(t, p, k, n, d);
    }
}

// The one in seat n may read nothing of bus b any more.
fn forget(t: &mut [u64], p: &[u8], k: Caps, b: u64, n: u64)
    requires { Room k t.old p.now × (b < SAFE) × (n < MOST-SEATS) }
    ensures { Makes k (forget b n k.datas) t.old p.now t.new p.now }
{
    for d in 0..k.datas as u64 {
        forget_one(t, p, k, b, n, d);
    }
}

// Seat n of bus b is given up.
#[tactic(auto, unfolding(rules::specs::Buses::stand_up))]
pub fn stand_up(t: &mut [u64], p: &[u8], k: Caps, b: u64, n: u64)
    requires { Room k t.old p.now × (b < SAFE) × (n < MOST-SEATS) }
    ensures { Makes k (λ s. stand_up k s b n) t.old p.now t.new p.now }
{
    forget(t, p, k, b, n);
    put(t, p, k, SEAT, seat_at(b, n), 0);
}

// ---- all buses: the seats are given up first, and noted in a row; then each data entry is passed once, for all of these buses. Slot x is written one up
// Slot x gives up its seat on bus b, if it has one, and the row says which. Had it one?
fn give_up_on(
    t: &mut [u64],
    p: &[u8],
    k: Caps,
    x: u64,
    b: u64,
    seats: &mut [u8; MOST_BUSES],
) -> bool
    requires { Room k t.old p.now × (0 < x) × (b < SAFE) × (length seats.old ≡ MOST-BUSES) }
    ensures { Does k (λ s. sits s b x) (give_up_on x b) t.old p.now result t.new p.now × Of k (λ s. seats.new ≡ noted x b s seats.old) t.old p.now }
{
    let n = seat_of(t, p, k, b, x);
    let there = n < MOST_SEATS as u64;
    if there {
        put(t, p, k, SEAT, seat_at(b, n), 0);
        seats[b as usize] = n as u8;
    }
    there
}

// The same on all buses, of which so many are made, with a row that has no seat yet. Had it any?
fn give_up(
    t: &mut [u64],
    p: &[u8],
    k: Caps,
    x: u64,
    made: u64,
    seats: &mut [u8; MOST_BUSES],
) -> bool
    requires { Room k t.old p.now × (0 < x) × (made ≤ SAFE) × (seats.old ≡ replicate MOST-BUSES MOST-SEATS) }
    ensures { Does k (gave_up x made) (give_up x made) t.old p.now result t.new p.now × Of k (λ s. GivenUp s x made seats.new) t.old p.now }
{
    let mut any = false;
    for b in 0..made {
        any |= give_up_on(t, p, k, x, b, seats);
    }
    any
}

// The seat that was given up on the bus whose number, one up, a data entry has; past the last where none was, and where it holds no value.
fn given_up(seats: &[u8; MOST_BUSES], bus: u64) -> u64
    requires { length seats.now ≡ MOST-BUSES }
    ensures { result ≡ given_up seats.now bus }
{
    if 1 <= bus && bus <= MOST_BUSES as u64 {
        seats[(bus - 1) as usize] as u64
    } else {
        MOST_SEATS as u64
    }
}

// Data entry d may be read no more from the seat that was given up on its bus.
fn strike_by(t: &mut [u64], p: &[u8], k: Caps, seats: &[u8; MOST_BUSES], d: u64)
    requires { Room k t.old p.now × (length seats.now ≡ MOST-BUSES) }
    ensures { Makes k (strike_by seats.now d) t.old p.now t.new p.now }
{
    let n = given_up(seats, get(t, p, k, VALUE_BUS, d));
    if n < MOST_SEATS as u64 {
        strike(t, p, k, n, d);
    }
}

// No data entry may be read any more from a seat that was given up.
fn forget_by(t: &mut [u64], p: &[u8], k: Caps, seats: &[u8; MOST_BUSES])
    requires { Room k t.old p.now × (length seats.now ≡ MOST-BUSES) }
    ensures { Makes k (forget_by seats.now k.datas) t.old p.now t.new p.now }
{
    for d in 0..k.datas as u64 {
        strike_by(t, p, k, seats, d);
    }
}

// Slot a leaves all buses that are made. Where it sits on none no data entry is passed.
pub fn leave_buses(t: &mut [u64], p: &[u8], k: Caps, a: u64)
    requires { RoomWith k (λ s. (a < SAFE) × (head s BUSES ≤ SAFE)) t.old p.now }
    ensures { Makes k (λ s. leave_buses k a (head s BUSES) s) t.old p.now t.new p.now }
{
    let made = get(t, p, k, BUSES, 0);
    let mut seats = [MOST_SEATS as u8; MOST_BUSES];
    if give_up(t, p, k, a + 1, made, &mut seats) {
        forget_by(t, p, k, &seats);
    }
}
