// The rules of links, monitors and timers, over their columns and the row of how slots stand.
ghost use Rattle.std.specs.Prelude.{◌≡◌, suc, ◌<◌, ◌≤◌, length};
ghost use Rattle.pools.specs.Slot.{id_of};
ghost use Rattle.rules.specs.Rule.{test, both, each};
ghost use Rattle.rules.specs.Sound.{interval_rule, link_rule, monitor_rule, pair_rule, timer_rule};
ghost use Rattle.rules.specs.Host.{Tests};
ghost use Rattle.sound.specs.Pairs.{PairSeen, Square, side_of, square_words};
ghost use Rattle.sound.specs.Standing.{Clear, Spans, Standing};
ghost use Rattle.sound.specs.Ties.{ends_in, links_in, monitor_in, timer_in, LinkSeen};
ghost use Rattle.tables.specs.Columns.{STATE};
ghost use Rattle.tables.specs.Limits.{MOST-ACTORS};
ghost use Rattle.tables.specs.Sizes.{COLUMN-BITS};
ghost use Rattle.tables.specs.State.{RoomWith};

use crate::lists::zero_from;
use crate::standing::{FEW_ACTORS, lives};
use pools::bits::{WORD_BITS, is_free, release};
use tables::Caps;
use tables::columns::{
    DUE, INTERVAL, LINK_ONE, LINK_TWO, MONITOR_AGE, TIMER_AGE, TIMER_OWNER, WATCHED, WATCHER,
};
use tables::limits::{DUE_END, LONGEST, MOST_ACTORS, OLDEST, SHORTEST_INTERVAL};
use tables::words::column;

// Two words name two different live actors.
fn ends_ok(row: &[u8], one: u64, two: u64) -> bool
    ensures { result ≡ test (ends_in row.now one two) }
{
    let first = lives(row, one);
    let second = lives(row, two);
    first & (second & (one != two))
}

// ---- "no pair twice": each pair is marked in a square of bits, slot by slot, once for each order; a mark is a bit that is 1, as that of a free entry
// The words of the square of a box of few actors, whose side is that many, and of the square of any box.
const FEW_SQUARE: usize = FEW_ACTORS * FEW_ACTORS / WORD_BITS;

const SQUARE: usize = MOST_ACTORS * MOST_ACTORS / WORD_BITS;

// The bit of two slots.
fn place(side: usize, a: usize, b: usize) -> usize
    requires { (side ≤ COLUMN-BITS) × (a < side) × (b < side) }
    ensures { result ≡ id_of side a b }
{
    a * side + b
}

// Was the pair of two slots, written one up, not marked yet? It is now.
fn pair_new(seen: &mut [u64], side: usize, one: u64, two: u64) -> bool
    requires { (side ≤ COLUMN-BITS) × ((1 ≤ one) × (one ≤ side)) × ((1 ≤ two) × (two ≤ side)) }
    ensures { PairSeen side one two seen.old result seen.new }
{
    let a = (one - 1) as usize;
    let b = (two - 1) as usize;
    let there = place(side, a, b);
    let back = place(side, b, a);
    let known = is_free(seen, there);
    release(seen, there);
    release(seen, back);
    !known
}

// ---- links
// Two words that are both 0, or name two different live actors whose pair is new.
fn link_ok(row: &[u8], seen: &mut [u64], side: usize, one: u64, two: u64) -> bool
    requires { Spans (suc side) row.now × (side ≤ COLUMN-BITS) }
    ensures { LinkSeen side row.now one two seen.old result seen.new }
{
    if one == 0 {
        return two == 0;
    }
    if ends_ok(row, one, two) {
        return pair_new(seen, side, one, two);
    }
    false
}

// The words of the first n links, which name their ends, the row that says how the slots stand, and how many actors the box is for.
#[derive(Clone, Copy)]
struct Ends<'a> {
    row: &'a [u8],
    one: &'a [u64],
    two: &'a [u64],
    n: usize,
    actors: usize,
    ghost long: { (n ≤ length one.now) × (n ≤ length two.now) },
}

impl Ends<'_> {
    // All of them, marked in a square that is clear.
    fn marked_ok(&self, seen: &mut [u64], side: usize) -> bool
        requires { Spans (suc side) self.now.row.now × Square side (length seen.old) × Clear seen.old }
        ensures { result ≡ test (links_in self.now.row.now self.now.one.now self.now.two.now self.now.n) }
    {
        let mut ok = true;
        for e in 0..self.n {
            ok &= link_ok(self.row, seen, side, self.one[e], self.two[e]);
        }
        ok
    }

    // The same, in a square of n words that is made here: of the side that a box of so many actors gets, and no more words than it asks for.
    fn squared_ok<const N: usize>(&self, side: usize) -> bool
        requires { Spans (suc side) self.now.row.now × Square side N × (N ≤ square_words MOST-ACTORS) × (side ≡ side_of self.now.actors) × (N ≡ square_words side) }
        ensures { result ≡ test (links_in self.now.row.now self.now.one.now self.now.two.now self.now.n) }
    {
        let mut seen = [0u64; N];
        self.marked_ok(&mut seen, side)
    }

    // The same, by the box. Where none is in use one OR tells, and no square is cleared; the square of a box of few is cheap to clear.
    fn links_ok(&self) -> bool
        requires { Spans (suc self.now.actors) self.now.row.now × (self.now.actors ≤ MOST-ACTORS) }
        ensures { result ≡ test (links_in self.now.row.now self.now.one.now self.now.two.now self.now.n) }
    {
        if zero_from(self.one, 0, self.n) {
            return zero_from(self.two, 0, self.n);
        }
        if self.actors <= FEW_ACTORS {
            return self.squared_ok::<FEW_SQUARE>(FEW_ACTORS);
        }
        self.squared_ok::<SQUARE>(MOST_ACTORS)
    }
}

// The links, and their pairs.
pub fn links(t: &[u64], p: &[u8], k: Caps, row: &[u8]) -> bool
    requires { RoomWith k (λ s. Standing (s STATE) row.now) t.now p.now }
    ensures { Tests k (λ s. both (each k.links (λ e. link_rule s e)) (each k.links (λ e. pair_rule s e))) t.now p.now result }
{
    let links = Ends {
        row,
        one: column(t, p, k, LINK_ONE),
        two: column(t, p, k, LINK_TWO),
        n: k.links,
        actors: k.actors,
    };
    links.links_ok()
}

// ---- monitors
fn monitor_ok(row: &[u8], watcher: u64, watched: u64, age: u64) -> bool
    ensures { result ≡ test (monitor_in row.now watcher watched age) }
{
    if watcher == 0 {
        return (watched == 0) & (age <= OLDEST);
    }
    ends_ok(row, watcher, watched) & ((1 <= age) & (age <= OLDEST))
}

pub fn monitors(t: &[u64], p: &[u8], k: Caps, row: &[u8]) -> bool
    requires { RoomWith k (λ s. Standing (s STATE) row.now) t.now p.now }
    ensures { Tests k (λ s. each k.monitors (λ e. monitor_rule s e)) t.now p.now result }
{
    let watcher = column(t, p, k, WATCHER);
    let watched = column(t, p, k, WATCHED);
    let age = column(t, p, k, MONITOR_AGE);
    let mut ok = true;
    for e in 0..k.monitors {
        ok &= monitor_ok(row, watcher[e], watched[e], age[e]);
    }
    ok
}

// ---- timers
// An interval: 0, which is a one-shot's, or one in range.
fn interval_ok(interval: u64) -> bool
    ensures { result ≡ test (interval_rule interval) }
{
    (interval <= LONGEST) & ((interval == 0) | (SHORTEST_INTERVAL <= interval))
}

fn timer_ok(row: &[u8], owner: u64, age: u64, due: u64, interval: u64) -> bool
    ensures { result ≡ test (timer_in row.now owner age due interval) }
{
    if owner == 0 {
        return ((due | interval) == 0) & (age <= OLDEST);
    }
    (lives(row, owner) & ((1 <= age) & (age <= OLDEST)))
        & ((due <= DUE_END) & interval_ok(interval))
}

pub fn timers(t: &[u64], p: &[u8], k: Caps, row: &[u8]) -> bool
    requires { RoomWith k (λ s. Standing (s STATE) row.now) t.now p.now }
    ensures { Tests k (λ s. each k.timers (λ e. timer_rule s e)) t.now p.now result }
{
    let owner = column(t, p, k, TIMER_OWNER);
    let age = column(t, p, k, TIMER_AGE);
    let due = column(t, p, k, DUE);
    let interval = column(t, p, k, INTERVAL);
    let mut ok = true;
    for e in 0..k.timers {
        ok &= timer_ok(row, owner[e], age[e], due[e], interval[e]);
    }
    ok
}
