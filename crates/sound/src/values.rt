// The rules of the values that stand on buses, and of the row that has them in their order.
ghost use Rattle.std.specs.Prelude.{◌≡◌, suc, ◌+◌, ◌≤◌, eqb, length, get_or, replicate};
ghost use mir.Val.{bool_byte};
ghost use Rattle.pools.specs.Pool.{occurs};
ghost use Rattle.rules.specs.Rule.{test, both, each, le, Holds};
ghost use Rattle.rules.specs.Sound.{crowd_rule, head_rule, issue_rule};
ghost use Rattle.rules.specs.Host.{Tests};
ghost use Rattle.sound.specs.Kinds.{issued_rules, value_rules};
ghost use Rattle.sound.specs.Marks.{Below};
ghost use Rattle.sound.specs.Values.{Counts, Empties, Empty, issue_in, named_rule, value_in};
ghost use Rattle.tables.specs.Columns.{BUSES, ISSUED, SEAT};
ghost use Rattle.tables.specs.Limits.{MOST-BUSES, MOST-DATAS, MOST-SEATS};
ghost use Rattle.tables.specs.Sizes.{ALL-SEATS};
ghost use Rattle.tables.specs.State.{Room, RoomWith, head};

use crate::lists::zero_from;
use crate::marks::Marks;
use tables::Caps;
use tables::columns::{BUS_SIZE, BUSES, CLOCK, ISSUE, ISSUED, PUBLISHED, READERS, SEAT, VALUE_BUS};
use tables::limits::{MOST_BUSES, MOST_SEATS};
use tables::words::{column, get};

// ---- the row of values
// A row of n words, of which m count: those name one of n entries, one up.
fn issues_ok(list: &[u64], m: usize, n: usize) -> bool
    requires { (m ≤ n) × (n ≤ length list.now) }
    ensures { result ≡ test (each n (λ i. issue_in n m list.now i)) }
{
    let named = list[..m]
        .iter()
        .all(|word| (1 <= *word) & (*word <= n as u64));
    let rest = zero_from(list, m, n);
    named & rest
}

// ---- the seats that are empty, as masks
// Those of one bus.
fn empty_in(seats: &[u64]) -> u64
    requires { MOST-SEATS ≤ length seats.now }
    ensures { Empty seats.now MOST-SEATS result }
{
    let mut mask = 0;
    for i in 0..MOST_SEATS {
        mask |= u64::from(seats[i] == 0) << i;
    }
    mask
}

// Those of the first n.
fn empties(seats: &[u64], n: usize, masks: &mut [u64; MOST_BUSES])
    requires { (n ≤ MOST-BUSES) × (ALL-SEATS ≤ length seats.now) × (length masks.old ≡ MOST-BUSES) }
    ensures { Empties seats.now n masks.new }
{
    for b in 0..n {
        let from = MOST_SEATS * b;
        masks[b] = empty_in(&seats[from..from + MOST_SEATS]);
    }
}

// ---- values
// The words of a data entry: those who may read a value have not read it, and sit on its bus.
fn value_ok(
    masks: &[u64; MOST_BUSES],
    made: u64,
    clock: u64,
    named: bool,
    bus: u64,
    readers: u64,
    published: u64,
) -> bool
    requires { (made ≤ MOST-BUSES) × (length masks.now ≡ MOST-BUSES) }
    ensures { result ≡ test (value_in masks.now made clock named bus readers published) }
{
    if bus == 0 {
        return !named & ((readers | published) == 0);
    }
    if bus <= made {
        let may = readers >> MOST_SEATS;
        let wrong = (may & readers) | (may & masks[(bus - 1) as usize]);
        return named & ((published <= clock) & (wrong == 0));
    }
    false
}

// All of them, by the masks, where those are marked that the row has.
fn values_by(t: &[u64], p: &[u8], k: Caps, masks: &[u64; MOST_BUSES], seen: &Marks) -> bool
    requires { RoomWith k (λ s. Holds (head_rule k s) × Empties (s SEAT) (head s BUSES) masks.now) t.now p.now }
    ensures { Tests k (λ s. each k.datas (λ d. named_rule seen.now.bits s d)) t.now p.now result }
{
    let made = get(t, p, k, BUSES, 0);
    let clock = get(t, p, k, CLOCK, 0);
    let buses = column(t, p, k, VALUE_BUS);
    let readers = column(t, p, k, READERS);
    let published = column(t, p, k, PUBLISHED);
    let mut ok = true;
    for d in 0..k.datas {
        let named = seen.has(d);
        ok &= value_ok(
            masks,
            made,
            clock,
            named,
            buses[d],
            readers[d],
            published[d],
        );
    }
    ok
}

// The same, by masks that are made here.
fn values_ok(t: &[u64], p: &[u8], k: Caps, seen: &Marks) -> bool
    requires { RoomWith k (λ s. Holds (head_rule k s)) t.now p.now }
    ensures { Tests k (λ s. each k.datas (λ d. named_rule seen.now.bits s d)) t.now p.now result }
{
    let mut masks = [0u64; MOST_BUSES];
    let n = get(t, p, k, BUSES, 0) as usize;
    empties(column(t, p, k, SEAT), n, &mut masks);
    values_by(t, p, k, &masks, seen)
}

// ---- how many values a bus has
// The bus that a word names, one up, has one more.
fn count_up(counts: &mut [u64; MOST_BUSES], bus: u64)
    requires { (length counts.old ≡ MOST-BUSES) × Below (suc MOST-DATAS) MOST-BUSES counts.old }
    ensures { Counts (λ b. get_or counts.old b 0 + bool_byte (eqb bus (suc b))) counts.new }
{
    if bus == 0 {
        return;
    }
    if bus <= (MOST_BUSES as u64) {
        counts[(bus - 1) as usize] += 1;
    }
}

// How often a list names each bus, one up.
fn tally(list: &[u64], counts: &mut [u64; MOST_BUSES])
    requires { (length list.now ≤ MOST-DATAS) × (counts.old ≡ replicate MOST-BUSES 0) }
    ensures { Counts (λ b. occurs (suc b) list.now) counts.new }
{
    for bus in list {
        count_up(counts, *bus);
    }
}

// Does no bus have too many?
fn crowds(t: &[u64], p: &[u8], k: Caps) -> bool
    requires { Room k t.now p.now }
    ensures { Tests k (λ s. each MOST-BUSES (λ b. crowd_rule s b)) t.now p.now result }
{
    let mut counts = [0u64; MOST_BUSES];
    tally(column(t, p, k, VALUE_BUS), &mut counts);
    let sizes = column(t, p, k, BUS_SIZE);
    (0..MOST_BUSES).all(|b| counts[b] <= sizes[b])
}

// ---- all of them
// Where no value stands the words of all data entries and of the row are 0.
fn none_stand(t: &[u64], p: &[u8], k: Caps) -> bool
    requires { RoomWith k (λ s. head s ISSUED ≡ 0) t.now p.now }
    ensures { Tests k (λ s. both (value_rules k s) (issued_rules k s)) t.now p.now result }
{
    let buses = zero_from(column(t, p, k, VALUE_BUS), 0, k.datas);
    let readers = zero_from(column(t, p, k, READERS), 0, k.datas);
    let published = zero_from(column(t, p, k, PUBLISHED), 0, k.datas);
    let row = zero_from(column(t, p, k, ISSUE), 0, k.datas);
    (buses & readers) & (published & row)
}

// Where some do, in a row of n: is each in the row once, and nothing else? Are they sound, and has no bus too many?
fn some_stand(t: &[u64], p: &[u8], k: Caps, n: usize) -> bool
    requires { RoomWith k (λ s. Holds (head_rule k s) × Holds (each k.datas (λ i. issue_rule k s i)) × (n ≡ head s ISSUED)) t.now p.now }
    ensures { Tests k (λ s. both (value_rules k s) (issued_rules k s)) t.now p.now result }
{
    let mut seen = Marks::none();
    let once = seen.mark_first_up(column(t, p, k, ISSUE), n);
    let values = values_ok(t, p, k, &seen);
    let crowds = crowds(t, p, k);
    (once & values) & crowds
}

pub fn values(t: &[u64], p: &[u8], k: Caps) -> bool
    requires { RoomWith k (λ s. Holds (head_rule k s)) t.now p.now }
    ensures { Tests k (λ s. both (value_rules k s) (issued_rules k s)) t.now p.now result }
{
    let n = get(t, p, k, ISSUED, 0) as usize;
    if n == 0 {
        return none_stand(t, p, k);
    }
    if issues_ok(column(t, p, k, ISSUE), n, k.datas) {
        return some_stand(t, p, k, n);
    }
    false
}
