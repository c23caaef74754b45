// The rules of buses: what each is made with, and who sits on it.
ghost use Rattle.std.specs.Prelude.{◌≡◌, suc, ◌≤◌, length, get_or};
ghost use Rattle.rules.specs.Rule.{test, each, Holds};
ghost use Rattle.rules.specs.Sound.{bus_rule, head_rule, row_rule};
ghost use Rattle.rules.specs.Host.{Tests};
ghost use Rattle.sound.specs.Buses.{settings_in, sitter_in, new_in, row_in, rows_in, Before, Seats, Told};
ghost use Rattle.sound.specs.Kinds.{bus_rules};
ghost use Rattle.sound.specs.Marks.{Below};
ghost use Rattle.sound.specs.Standing.{PLACES, Clear, Spans, Standing, places};
ghost use Rattle.tables.specs.Columns.{STATE};
ghost use Rattle.tables.specs.Limits.{MOST-ACTORS, MOST-BUSES, MOST-SEATS};
ghost use Rattle.tables.specs.State.{RoomWith};

use crate::lists::zero_from;
use crate::standing::{FEW_ACTORS, FEW_PLACES, PLACES, lives};
use tables::Caps;
use tables::columns::{BUS_AGE, BUS_READS, BUS_SEATS, BUS_SIZE, BUSES, SEAT};
use tables::limits::{LONGEST_AGE, MOST_BUSES, MOST_READS, MOST_SEATS, MOST_VALUES};
use tables::sizes::ALL_SEATS;
use tables::words::{column, get};

// ---- what a bus is made with
// The settings of one that is made.
fn settings_ok(size: u64, seats: u64, reads: u64, age: u64) -> bool
    ensures { result ≡ test (settings_in size seats reads age) }
{
    (((1 <= size) & (size <= (MOST_VALUES as u64)))
        & ((1 <= seats) & (seats <= (MOST_SEATS as u64))))
        & ((reads <= (MOST_READS as u64)) & (age <= LONGEST_AGE))
}

// Those of all buses: the words of the ones that are not made are 0.
fn made(t: &[u64], p: &[u8], k: Caps) -> bool
    requires { RoomWith k (λ s. Holds (head_rule k s)) t.now p.now }
    ensures { Tests k (λ s. each MOST-BUSES (λ b. bus_rule s b)) t.now p.now result }
{
    let n = get(t, p, k, BUSES, 0) as usize;
    let sizes = column(t, p, k, BUS_SIZE);
    let seats = column(t, p, k, BUS_SEATS);
    let reads = column(t, p, k, BUS_READS);
    let ages = column(t, p, k, BUS_AGE);
    let made = (0..n).all(|b| settings_ok(sizes[b], seats[b], reads[b], ages[b]));
    let no_size = zero_from(sizes, n, MOST_BUSES);
    let no_seats = zero_from(seats, n, MOST_BUSES);
    let no_reads = zero_from(reads, n, MOST_BUSES);
    let no_age = zero_from(ages, n, MOST_BUSES);
    made & ((no_size & no_seats) & (no_reads & no_age))
}

// ---- who sits on a bus
// The words of its seats, with no way out: each is 0, or names a live actor in one of so many seats.
fn sitters_ok(row: &[u8], seats: &[u64], limit: u64) -> bool
    requires { MOST-SEATS ≤ length seats.now }
    ensures { result ≡ test (each MOST-SEATS (λ n. sitter_in row.now limit (get_or seats.now n 0) n)) }
{
    let mut ok = true;
    for n in 0..MOST_SEATS {
        ok &= (seats[n] == 0) | (((n as u64) < limit) & lives(row, seats[n]));
    }
    ok
}

// Is none of them twice there? Each gets the stamp of this bus, which nobody has before.
fn none_twice(seats: &[u64], stamps: &mut [u8], stamp: u8) -> bool
    requires { (MOST-SEATS ≤ length seats.now) × Below (length stamps.old) MOST-SEATS seats.now × Before stamp stamps.old }
    ensures { Told (each MOST-SEATS (λ n. new_in seats.now n)) stamp result stamps.new }
{
    let mut ok = true;
    for n in 0..MOST_SEATS {
        let place = seats[n] as usize;
        ok &= (place == 0) | (stamps[place] != stamp);
        stamps[place] = stamp;
    }
    ok
}

// Both. Where nobody sits on it one OR tells.
fn row_ok(row: &[u8], stamps: &mut [u8], stamp: u8, seats: &[u64], limit: u64) -> bool
    requires { Spans (length stamps.old) row.now × Before stamp stamps.old × (MOST-SEATS ≤ length seats.now) }
    ensures { Told (row_in row.now limit seats.now) stamp result stamps.new }
{
    if zero_from(seats, 0, MOST_SEATS) {
        return true;
    }
    if sitters_ok(row, seats, limit) {
        return none_twice(seats, stamps, stamp);
    }
    false
}

// The seats of the first n buses and how many each may have, the row that says how the slots stand, and how many actors the box is for.
#[derive(Clone, Copy)]
struct Seating<'a> {
    row: &'a [u8],
    seats: &'a [u64],
    limits: &'a [u64],
    n: usize,
    actors: usize,
    ghost long: { Seats seats.now limits.now n },
}

impl Seating<'_> {
    // All of them, by stamps that are clear.
    fn stamped_ok(&self, stamps: &mut [u8]) -> bool
        requires { Spans (length stamps.old) self.now.row.now × Clear stamps.old }
        ensures { result ≡ test (rows_in self.now.row.now self.now.seats.now self.now.limits.now self.now.n) }
    {
        let mut ok = true;
        for b in 0..self.n {
            let from = MOST_SEATS * b;
            let seats = &self.seats[from..from + MOST_SEATS];
            ok &= row_ok(self.row, stamps, (b + 1) as u8, seats, self.limits[b]);
        }
        ok
    }

    // The same, by stamps for n places that are made here: as many as a box of so many actors gets.
    fn placed_ok<const N: usize>(&self) -> bool
        requires { Spans N self.now.row.now × (N ≤ PLACES) × (N ≡ places self.now.actors) }
        ensures { result ≡ test (rows_in self.now.row.now self.now.seats.now self.now.limits.now self.now.n) }
    {
        let mut stamps = [0u8; N];
        self.stamped_ok(&mut stamps)
    }

    // The same, by as many stamps as the box asks for: none where no bus is made.
    fn rows_ok(&self) -> bool
        requires { Spans (suc self.now.actors) self.now.row.now × (self.now.actors ≤ MOST-ACTORS) }
        ensures { result ≡ test (rows_in self.now.row.now self.now.seats.now self.now.limits.now self.now.n) }
    {
        if self.n == 0 {
            return true;
        }
        if self.actors <= FEW_ACTORS {
            return self.placed_ok::<FEW_PLACES>();
        }
        self.placed_ok::<PLACES>()
    }
}

// All of them: on those that are not made nobody sits.
fn rows(t: &[u64], p: &[u8], k: Caps, row: &[u8]) -> bool
    requires { RoomWith k (λ s. Standing (s STATE) row.now × Holds (head_rule k s) × Holds (each MOST-BUSES (λ b. bus_rule s b))) t.now p.now }
    ensures { Tests k (λ s. each MOST-BUSES (λ b. row_rule s b)) t.now p.now result }
{
    let n = get(t, p, k, BUSES, 0) as usize;
    let seats = column(t, p, k, SEAT);
    let limits = column(t, p, k, BUS_SEATS);
    let made = Seating {
        row,
        seats,
        limits,
        n,
        actors: k.actors,
    };
    let seated = made.rows_ok();
    let rest = zero_from(seats, MOST_SEATS * n, ALL_SEATS);
    seated & rest
}

// The buses, and then who sits on them.
pub fn buses(t: &[u64], p: &[u8], k: Caps, row: &[u8]) -> bool
    requires { RoomWith k (λ s. Standing (s STATE) row.now × Holds (head_rule k s)) t.now p.now }
    ensures { Tests k (λ s. bus_rules s) t.now p.now result }
{
    made(t, p, k) && rows(t, p, k, row)
}
