// Buses: their settings, and who sits on them. The slot of one who sits is written one up, as in the columns.
ghost use Rattle.std.specs.Prelude.{◌≡◌, cond, ◌+◌, ◌≤◌, ◌<◌, eqb};
ghost use Rattle.pools.specs.Bits.{marked};
ghost use Rattle.tables.specs.Columns.{BUS-SEATS, BUSES};
ghost use Rattle.tables.specs.Limits.{MOST-SEATS, SAFE};
ghost use Rattle.tables.specs.State.{at, head, Room, RoomWith, Reads, Makes};
ghost use Rattle.rules.specs.Buses.{audience, in_seat, make_bus, seat_at, seat_for, seat_of, sit_down, sits};

use pools::bits::marked;
use tables::Caps;
use tables::columns::{BUS_AGE, BUS_READS, BUS_SEATS, BUS_SIZE, BUSES, SEAT};
use tables::limits::{MOST_BUSES, MOST_SEATS};
use tables::words::{get, put};

// ---- settings
// The next bus, with these four.
#[tactic(auto, unfolding(rules::specs::Buses::make_bus))]
pub fn make_bus(
    t: &mut [u64],
    p: &[u8],
    k: Caps,
    entries: u64,
    subscribers: u64,
    reads: u64,
    age: u64,
)
    requires { RoomWith k (λ s. head s BUSES ≤ SAFE) t.old p.now }
    ensures { Makes k (λ s. make_bus s entries subscribers reads age) t.old p.now t.new p.now }
{
    let b = get(t, p, k, BUSES, 0);
    put(t, p, k, BUS_SIZE, b, entries);
    put(t, p, k, BUS_SEATS, b, subscribers);
    put(t, p, k, BUS_READS, b, reads);
    put(t, p, k, BUS_AGE, b, age);
    put(t, p, k, BUSES, 0, b + 1);
}

// ---- seats
// Seat n of bus b among the seats of all buses.
pub fn seat_at(b: u64, n: u64) -> u64
    requires { (b < SAFE) × (n < SAFE) }
    ensures { result ≡ seat_at b n }
{
    (MOST_SEATS as u64) * b + n
}

// The slot in it; 0 where nobody sits there, and past the last bus.
fn in_seat(t: &[u64], p: &[u8], k: Caps, b: u64, n: u64) -> u64
    requires { Room k t.now p.now × (n < MOST-SEATS) }
    ensures { Reads k (λ s. in_seat s b n) t.now p.now result }
{
    if b < MOST_BUSES as u64 {
        get(t, p, k, SEAT, seat_at(b, n))
    } else {
        0
    }
}

// The seat of slot a on bus b; past the last where it has none.
pub fn seat_of(t: &[u64], p: &[u8], k: Caps, b: u64, a: u64) -> u64
    requires { Room k t.now p.now }
    ensures { Reads k (λ s. seat_of s b a) t.now p.now result }
{
    let most = MOST_SEATS as u64;
    for n in 0..most {
        if in_seat(t, p, k, b, n) == a {
            return n;
        }
    }
    most
}

// Is slot a subscribed to bus b?
pub fn sits(t: &[u64], p: &[u8], k: Caps, b: u64, a: u64) -> bool
    requires { Room k t.now p.now }
    ensures { Reads k (λ s. sits s b a) t.now p.now result }
{
    seat_of(t, p, k, b, a) < MOST_SEATS as u64
}

// The lowest seat of bus b that is free; past the last where there is none.
pub fn seat_for(t: &[u64], p: &[u8], k: Caps, b: u64) -> u64
    requires { RoomWith k (λ s. at s BUS-SEATS b ≤ MOST-SEATS) t.now p.now }
    ensures { Reads k (λ s. seat_for s b) t.now p.now result }
{
    let most = get(t, p, k, BUS_SEATS, b);
    for n in 0..most {
        if in_seat(t, p, k, b, n) == 0 {
            return n;
        }
    }
    most
}

// Slot a sits down in seat n of bus b; with 0 the seat is free.
#[tactic(auto, unfolding(rules::specs::Buses::sit_down))]
pub fn sit_down(t: &mut [u64], p: &[u8], k: Caps, b: u64, n: u64, a: u64)
    requires { Room k t.old p.now × (b < SAFE) × (n < SAFE) }
    ensures { Makes k (λ s. sit_down s b n a) t.old p.now t.new p.now }
{
    put(t, p, k, SEAT, seat_at(b, n), a);
}

// ---- who may read what is published now
// A mask, with whoever sits in seat n of bus b among those who may read.
fn admit(t: &[u64], p: &[u8], k: Caps, b: u64, n: u64, mask: u64) -> u64
    requires { Room k t.now p.now × (n < MOST-SEATS) }
    ensures { Reads k (λ s. cond (eqb (in_seat s b n) 0) mask (marked mask (MOST-SEATS + n))) t.now p.now result }
{
    if in_seat(t, p, k, b, n) == 0 {
        mask
    } else {
        marked(mask, MOST_SEATS + n as usize)
    }
}

// The mask of all who sit on bus b.
pub fn audience(t: &[u64], p: &[u8], k: Caps, b: u64) -> u64
    requires { Room k t.now p.now }
    ensures { Reads k (λ s. audience s b MOST-SEATS) t.now p.now result }
{
    let mut mask = 0;
    for n in 0..MOST_SEATS as u64 {
        mask = admit(t, p, k, b, n, mask);
    }
    mask
}
