// Values: what was published and still stands on a bus, in one row for all buses, in the order of publishing.
ghost use Rattle.std.specs.Prelude.{◌≡◌, true, ◌≤◌, ◌<◌, length};
ghost use Rattle.tables.specs.Columns.{ISSUED, PUBLISHED, READERS, VALUE-BUS};
ghost use Rattle.tables.specs.Limits.{MOST-SEATS, PAYLOAD-MOST, SAFE};
ghost use Rattle.tables.specs.State.{at, head, poke, Room, RoomWith, Reads, Makes};
ghost use Rattle.rules.specs.Buses.{broadcast, bus_full, evict, is_on, is_unread, issue, oldest_on, oldest_unread, read_off, read_out_of, retire, signed, value_at};
ghost use Rattle.actions.specs.Publishing.{Publishable};

use crate::buses::{audience, seat_of};
use crate::masks::{may_read, read_by, signed};
use crate::messages::{fill, unfill};
use crate::room::data_for;
use pools::slots::count_equal;
use reading::names::named;
use tables::Caps;
use tables::columns::{BUS_READS, BUS_SIZE, CLOCK, ISSUE, ISSUED, PUBLISHED, READERS, VALUE_BUS};
use tables::limits::MOST_SEATS;
use tables::lists::{pull, push};
use tables::words::{column, get, put};

// ---- the row
// The data entry of the i-th.
pub fn value_at(t: &[u64], p: &[u8], k: Caps, i: u64) -> u64
    requires { Room k t.now p.now }
    ensures { Reads k (λ s. value_at s i) t.now p.now result }
{
    named(get(t, p, k, ISSUE, i))
}

// Is it bus b's?
fn is_on(t: &[u64], p: &[u8], k: Caps, b: u64, i: u64) -> bool
    requires { Room k t.now p.now × (b < SAFE) }
    ensures { Reads k (λ s. is_on s b i) t.now p.now result }
{
    let d = value_at(t, p, k, i);
    get(t, p, k, VALUE_BUS, d) == b + 1
}

// The oldest of bus b; past the row where it has none.
pub fn oldest_on(t: &[u64], p: &[u8], k: Caps, b: u64) -> u64
    requires { Room k t.now p.now × (b < SAFE) }
    ensures { Reads k (λ s. oldest_on s b) t.now p.now result }
{
    let n = get(t, p, k, ISSUED, 0);
    for i in 0..n {
        if is_on(t, p, k, b, i) {
            return i;
        }
    }
    n
}

// Has bus b as many as it can have?
pub fn bus_full(t: &[u64], p: &[u8], k: Caps, b: u64) -> bool
    requires { Room k t.now p.now × (b < SAFE) }
    ensures { Reads k (λ s. bus_full s b) t.now p.now result }
{
    let size = get(t, p, k, BUS_SIZE, b);
    size <= count_equal(column(t, p, k, VALUE_BUS), b + 1) as u64
}

// Is the i-th bus b's, and may the one in seat n still read it?
fn is_unread(t: &[u64], p: &[u8], k: Caps, b: u64, n: u64, i: u64) -> bool
    requires { Room k t.now p.now × (b < SAFE) × (n < MOST-SEATS) }
    ensures { Reads k (λ s. is_unread s b n i) t.now p.now result }
{
    is_on(t, p, k, b, i) && may_read(get(t, p, k, READERS, value_at(t, p, k, i)), n)
}

// The oldest of bus b that slot a, written one up, has not read; past the row where there is none, or where it is not subscribed.
pub fn oldest_unread(t: &[u64], p: &[u8], k: Caps, b: u64, a: u64) -> u64
    requires { Room k t.now p.now × (0 < a) }
    ensures { Reads k (λ s. oldest_unread s b a) t.now p.now result }
{
    let n = get(t, p, k, ISSUED, 0);
    let seat = seat_of(t, p, k, b, a);
    if seat >= MOST_SEATS as u64 {
        return n;
    }
    for i in 0..n {
        if is_unread(t, p, k, b, seat, i) {
            return i;
        }
    }
    n
}

// ---- a value begins and ends
// Data entry d holds a value of a bus, written one up, with its readers and the time when it was published; with zeros it holds none.
fn label(t: &mut [u64], p: &[u8], k: Caps, d: u64, bus: u64, readers: u64, published: u64)
    requires { Room k t.old p.now }
    ensures { Makes k (λ s. poke (poke (poke s VALUE-BUS d bus) READERS d readers) PUBLISHED d published) t.old p.now t.new p.now }
{
    put(t, p, k, VALUE_BUS, d, bus);
    put(t, p, k, READERS, d, readers);
    put(t, p, k, PUBLISHED, d, published);
}

// A payload is bus b's newest value, in data entry d.
pub fn issue(t: &mut [u64], p: &mut [u8], k: Caps, d: u64, b: u64, payload: &[u8])
    requires { RoomWith k (λ s. (d < k.datas) × (b < SAFE) × (length payload.now ≤ PAYLOAD-MOST) × (head s ISSUED ≤ SAFE)) t.old p.old }
    ensures { Makes k (λ s. issue s d b payload.now) t.old p.old t.new p.new }
{
    let readers = audience(t, p, k, b);
    let clock = get(t, p, k, CLOCK, 0);
    fill(t, p, k, d, 0, 0, payload);
    label(t, p, k, d, b + 1, readers, clock);
    push(t, p, k, ISSUE, ISSUED, d + 1);
}

// The j-th ends: the row closes up, and its data entry is freed.
pub fn retire(t: &mut [u64], p: &mut [u8], k: Caps, j: u64)
    requires { RoomWith k (λ s. (j < head s ISSUED) × (head s ISSUED ≤ k.datas)) t.old p.old }
    ensures { Makes k (λ s. retire s j) t.old p.old t.new p.new }
{
    let d = value_at(t, p, k, j);
    unfill(t, p, k, d);
    label(t, p, k, d, 0, 0, 0);
    pull(t, p, k, ISSUE, ISSUED, j);
}

// ---- publishing
// The oldest value of bus b ends if the bus is full.
#[tactic(auto, unfolding(rules::specs::Buses::evict))]
fn evict(t: &mut [u64], p: &mut [u8], k: Caps, b: u64)
    requires { RoomWith k (λ s. (b < SAFE) × (bus_full s b ≡ true → oldest_on s b < head s ISSUED) × (head s ISSUED ≤ k.datas)) t.old p.old }
    ensures { Makes k (λ s. evict s b) t.old p.old t.new p.new }
{
    if bus_full(t, p, k, b) {
        let j = oldest_on(t, p, k, b);
        retire(t, p, k, j);
    }
}

// A payload is published on bus b.
pub fn broadcast(t: &mut [u64], p: &mut [u8], k: Caps, b: u64, payload: &[u8])
    requires { RoomWith k (λ s. Publishable k s b × (length payload.now ≤ PAYLOAD-MOST)) t.old p.old }
    ensures { Makes k (λ s. broadcast k s b payload.now) t.old p.old t.new p.new }
{
    evict(t, p, k, b);
    let d = data_for(t, p, k);
    issue(t, p, k, d, b, payload);
}

// ---- reading
// Has data entry d been read as often as bus b asks?
fn read_out(t: &[u64], p: &[u8], k: Caps, b: u64, d: u64) -> bool
    requires { Room k t.now p.now }
    ensures { Reads k (λ s. read_out_of s b d) t.now p.now result }
{
    let reads = get(t, p, k, BUS_READS, b);
    reads != 0 && reads <= read_by(get(t, p, k, READERS, d))
}

// The one in seat n signs data entry d.
fn sign(t: &mut [u64], p: &[u8], k: Caps, d: u64, n: u64)
    requires { Room k t.old p.now × (n < MOST-SEATS) }
    ensures { Makes k (λ s. poke s READERS d (signed (at s READERS d) n)) t.old p.now t.new p.now }
{
    let mask = get(t, p, k, READERS, d);
    put(t, p, k, READERS, d, signed(mask, n));
}

// The one in seat n reads the j-th, which is bus b's; it ends if it has been read often enough.
pub fn read_off(t: &mut [u64], p: &mut [u8], k: Caps, b: u64, n: u64, j: u64)
    requires { RoomWith k (λ s. (n < MOST-SEATS) × (j < head s ISSUED) × (head s ISSUED ≤ k.datas)) t.old p.old }
    ensures { Makes k (λ s. read_off s b n j) t.old p.old t.new p.new }
{
    let d = value_at(t, p, k, j);
    sign(t, p, k, d, n);
    if read_out(t, p, k, b, d) {
        retire(t, p, k, j);
    }
}
