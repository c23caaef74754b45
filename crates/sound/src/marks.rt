// The rules on how often lists name an entry. In a set of bits the entries that no list may name are marked at first, and then each that a list names: none twice, and in the end all.
ghost use Rattle.std.specs.Prelude.{◌≡◌, suc, ◌-◌, ◌^◌, ◌≤◌, ◌<◌, min, eqb, length, take, replicate};
ghost use mir.Val.{bool_byte};
ghost use Rattle.pools.specs.Bits.{WORD-BITS, free};
ghost use Rattle.pools.specs.Pool.{occurs};
ghost use Rattle.rules.specs.Rule.{test, both, each, is, Holds};
ghost use Rattle.rules.specs.Sound.{held, plain_rules, once_rule, arrived_rule, held_rule};
ghost use Rattle.sound.specs.Marks.{Added, AddedBoth, AllResting, Below, Ended, OTHERS, Resting, full_rule, in_word};
ghost use Rattle.rules.specs.Host.{Tests};
ghost use Rattle.tables.specs.Sizes.{BIT-WORDS, COLUMN-BITS};
ghost use Rattle.tables.specs.State.{Of, RoomWith};

use crate::lists::zero_from;
use pools::bits::{WORD_BITS, is_free, power};
use rules::states::RUNNABLE;
use tables::Caps;
use tables::columns::{
    ARRIVAL, ARRIVED, DATA_FREE, HAND, ISSUE, ISSUED, MAIL_DATA, MAIL_FREE, QUEUE, QUEUED, STATE,
};
use tables::sizes::BIT_WORDS;
use tables::words::{column, get};

// Of how many words it is asked at once whether all are 0.
const PART: usize = 64;

// ---- marks
// A set of entries of a column: each that is marked has its bit.
#[derive(Clone, Copy)]
pub(crate) struct Marks {
    pub(crate) bits: [u64; BIT_WORDS],
    pub ghost long: { length bits ≡ BIT-WORDS },
}

impl Marks {
    // None is marked.
    pub(crate) fn none() -> Marks
        ensures { result.bits ≡ replicate BIT-WORDS 0 }
    {
        Marks {
            bits: [0; BIT_WORDS],
        }
    }

    // Those are marked that have their bit in a column.
    fn of(bits: &[u64]) -> Marks
        requires { length bits.now ≡ BIT-WORDS }
        ensures { result.bits ≡ bits.now }
    {
        Marks {
            bits: [bits[0], bits[1], bits[2], bits[3]],
        }
    }

    // Of the first n slots those are marked that are not runnable.
    fn resting(states: &[u64], n: usize) -> Marks
        requires { (n ≤ length states.now) × (n ≤ COLUMN-BITS) }
        ensures { AllResting states.now n result.bits }
    {
        let a = resting(states, n, 0);
        let b = resting(states, n, 1);
        let c = resting(states, n, 2);
        let d = resting(states, n, 3);
        Marks { bits: [a, b, c, d] }
    }

    // Is entry e marked?
    pub(crate) fn has(&self, e: usize) -> bool
        ensures { result ≡ free self.now.bits e }
    {
        is_free(&self.bits, e)
    }

    // Entry e is marked. Was it not marked before?
    fn mark(&mut self, e: usize) -> bool
        requires { e < COLUMN-BITS }
        ensures { Added (λ d. bool_byte (eqb e d)) result self.old.bits self.new.bits }
    {
        let word = self.bits[e / WORD_BITS];
        let bit = power(e % WORD_BITS);
        self.bits[e / WORD_BITS] = word | bit;
        (word & bit) == 0
    }

    // The first n words of a list are marked. Was none marked before?
    fn mark_each(&mut self, list: &[u64], n: usize) -> bool
        requires { (n ≤ length list.now) × Below COLUMN-BITS n list.now }
        ensures { Added (λ e. occurs e (take n list.now)) result self.old.bits self.new.bits }
    {
        let mut ok = true;
        for i in 0..n {
            ok &= self.mark(list[i] as usize);
        }
        ok
    }

    // The entry that a names, one up, is marked; 0 names none.
    fn mark_up(&mut self, a: usize) -> bool
        requires { a ≤ COLUMN-BITS }
        ensures { Added (λ d. bool_byte (eqb a (suc d))) result self.old.bits self.new.bits }
    {
        if a == 0 {
            return true;
        }
        self.mark(a - 1)
    }

    // The entries that a list names, one up, are marked. Was none marked before?
    fn mark_each_up(&mut self, list: &[u64]) -> bool
        requires { Below (suc COLUMN-BITS) (length list.now) list.now }
        ensures { Added (λ d. occurs (suc d) list.now) result self.old.bits self.new.bits }
    {
        let mut ok = true;
        for word in list {
            ok &= self.mark_up(*word as usize);
        }
        ok
    }

    // The same, of a list that may be all 0: one OR tells.
    fn mark_part_up(&mut self, list: &[u64]) -> bool
        requires { Below (suc COLUMN-BITS) (length list.now) list.now }
        ensures { Added (λ d. occurs (suc d) list.now) result self.old.bits self.new.bits }
    {
        if zero_from(list, 0, list.len()) {
            return true;
        }
        self.mark_each_up(list)
    }

    // The same, part by part.
    fn mark_parts_up(&mut self, list: &[u64]) -> bool
        requires { Below (suc COLUMN-BITS) (length list.now) list.now }
        ensures { Added (λ d. occurs (suc d) list.now) result self.old.bits self.new.bits }
    {
        let mut ok = true;
        for part in list.chunks(PART) {
            ok &= self.mark_part_up(part);
        }
        ok
    }

    // The entries that a list names, one up, of which the first n words count, and the others are 0.
    pub(crate) fn mark_first_up(&mut self, list: &[u64], n: usize) -> bool
        requires { (n ≤ length list.now) × Below (suc COLUMN-BITS) (length list.now) list.now × Ended n list.now }
        ensures { Added (λ d. occurs (suc d) list.now) result self.old.bits self.new.bits }
    {
        self.mark_each_up(&list[..n])
    }

    // All that the owners of data entries name, apart from the queued messages: a call for each.
    fn mark_others(&mut self, t: &[u64], p: &[u8], k: Caps) -> bool
        requires { RoomWith k (λ s. Holds (plain_rules k s)) t.now p.now }
        ensures { Of k (λ s. Added (λ d. held OTHERS s d) result self.old.bits self.new.bits) t.now p.now }
    {
        let hands = self.mark_each_up(column(t, p, k, HAND));
        let n = get(t, p, k, ISSUED, 0) as usize;
        let values = self.mark_first_up(column(t, p, k, ISSUE), n);
        hands & values
    }

    // Is each of n entries marked that has its bit in word j?
    fn full(&self, n: usize, j: usize) -> bool
        requires { j < BIT-WORDS }
        ensures { result ≡ test (full_rule n self.now.bits j) }
    {
        let from = WORD_BITS * j;
        if n <= from {
            return true;
        }
        let low = ones(n - from);
        (self.bits[j] & low) == low
    }

    // Is each of n entries marked?
    fn all(&self, n: usize) -> bool
        requires { n ≤ COLUMN-BITS }
        ensures { result ≡ test (each n (λ e. is (free self.now.bits e))) }
    {
        (0..BIT_WORDS).all(|j| self.full(n, j))
    }
}

// The same of a set that is lent as its words: the entries that a list names, one up, of which the first n words count, and the others are 0.
pub fn marks_first(list: &[u64], n: usize, seen: &mut [u64; BIT_WORDS]) -> bool
    requires { (n ≤ length list.now) × Below (suc COLUMN-BITS) (length list.now) list.now × Ended n list.now × (length seen.old ≡ BIT-WORDS) }
    ensures { Added (λ d. occurs (suc d) list.now) result seen.old seen.new }
{
    let mut marks = Marks { bits: *seen };
    let ok = marks.mark_first_up(list, n);
    *seen = marks.bits;
    ok
}

// The first n arrivals are marked in one set, and in another the data entries that the first n mailbox entries name, one up: the two chains of marks go side by side.
fn mark_both(
    arrivals: &[u64],
    entries: &[u64],
    n: usize,
    seen: &mut Marks,
    held: &mut Marks,
) -> bool
    requires { (n ≤ length arrivals.now) × (n ≤ length entries.now) × Below COLUMN-BITS n arrivals.now × Below (suc COLUMN-BITS) n entries.now }
    ensures { AddedBoth (λ e. occurs e (take n arrivals.now)) (λ d. occurs (suc d) (take n entries.now)) result seen.old.bits seen.new.bits held.old.bits held.new.bits }
{
    let mut ok = true;
    for i in 0..n {
        let once = seen.mark(arrivals[i] as usize);
        let named = held.mark_up(entries[i] as usize);
        ok &= once & named;
    }
    ok
}

// The first n arrivals in one set, and in another all that the mailbox entries name.
fn mark_mails(
    arrivals: &[u64],
    entries: &[u64],
    n: usize,
    seen: &mut Marks,
    held: &mut Marks,
) -> bool
    requires { (n ≤ length arrivals.now) × (n ≤ length entries.now) × Below COLUMN-BITS n arrivals.now × Below (suc COLUMN-BITS) (length entries.now) entries.now }
    ensures { AddedBoth (λ e. occurs e (take n arrivals.now)) (λ d. occurs (suc d) entries.now) result seen.old.bits seen.new.bits held.old.bits held.new.bits }
{
    let first = mark_both(arrivals, entries, n, seen, held);
    let rest = held.mark_parts_up(&entries[n..]);
    first & rest
}

// ---- what is marked at first, and in the end
// How many of n entries have their bit in word j.
fn in_word(n: usize, j: usize) -> usize
    requires { j < BIT-WORDS }
    ensures { result ≡ in_word n j }
{
    n.saturating_sub(WORD_BITS * j).min(WORD_BITS)
}

// The slots that are not runnable, of the first n those that have their bit in word j.
fn resting(states: &[u64], n: usize, j: usize) -> u64
    requires { (n ≤ length states.now) × (j < BIT-WORDS) }
    ensures { Resting states.now n j result }
{
    let from = WORD_BITS * j;
    let few = in_word(n, j);
    let mut word = 0;
    for i in 0..few {
        word |= u64::from(states[from + i] != RUNNABLE) << i;
    }
    word
}

// The number whose lowest m bits are 1; all of them, where it has no more.
fn ones(m: usize) -> u64
    ensures { result ≡ 2 ^ min WORD-BITS m - 1 }
{
    if WORD_BITS <= m {
        return u64::MAX;
    }
    (1 << m) - 1
}

// ---- the rules
// Is each runnable actor in the queue once, and no other?
pub fn once_ok(t: &[u64], p: &[u8], k: Caps) -> bool
    requires { RoomWith k (λ s. Holds (plain_rules k s)) t.now p.now }
    ensures { Tests k (λ s. each k.actors (λ a. once_rule s a)) t.now p.now result }
{
    let mut seen = Marks::resting(column(t, p, k, STATE), k.actors);
    let n = get(t, p, k, QUEUED, 0) as usize;
    let once = seen.mark_each(column(t, p, k, QUEUE), n);
    let all = seen.all(k.actors);
    once & all
}

// Is each mailbox entry that is in use among the arrivals once, and no other? And does each data entry that is in use have one owner, and no other any?
pub fn counted_ok(t: &[u64], p: &[u8], k: Caps) -> bool
    requires { RoomWith k (λ s. Holds (plain_rules k s)) t.now p.now }
    ensures { Tests k (λ s. both (each k.mails (λ e. arrived_rule s e)) (each k.datas (λ d. held_rule s d))) t.now p.now result }
{
    let mut seen = Marks::of(column(t, p, k, MAIL_FREE));
    let mut held = Marks::of(column(t, p, k, DATA_FREE));
    let arrivals = column(t, p, k, ARRIVAL);
    let entries = column(t, p, k, MAIL_DATA);
    let n = get(t, p, k, ARRIVED, 0) as usize;
    let once = mark_mails(arrivals, entries, n, &mut seen, &mut held);
    let others = held.mark_others(t, p, k);
    let mails = seen.all(k.mails);
    let datas = held.all(k.datas);
    (once & others) & (mails & datas)
}
