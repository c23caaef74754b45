// The rules of one entry, each a test over the words that it reads.
ghost use Rattle.std.specs.Prelude.{◌≡◌, ◌<◌};
ghost use Rattle.rules.specs.Rule.{test};
ghost use Rattle.rules.specs.Sound.{spare_rule, wait_rule};
ghost use Rattle.rules.specs.Host.{Tests};
ghost use Rattle.sound.specs.Kinds.{form_rule, formed_rule, rest_rule, waiting_rule, turn_rule, own_rule};
ghost use Rattle.tables.specs.Limits.{MOST-ACTORS};
ghost use Rattle.tables.specs.State.{Room};

use rules::states::{FREE, RUNNABLE, RUNS, TIMEOUT, WAITS};
use tables::Caps;
use tables::columns::{
    AGE, CLOCK, DEADLINE, HAND, PRIORITY, REASON, RUNNING, SPARE, STATE, WANT_CLASS, WANT_SENDER,
    WANT_TAG,
};
use tables::limits::{ANY_CLASS, ANY_TAG, DEADLINE_END, LAST_LEVEL, OLDEST};
use tables::words::get;

// ---- the head
pub fn spare_ok(t: &[u64], p: &[u8], k: Caps, i: u64) -> bool
    requires { Room k t.now p.now }
    ensures { Tests k (λ s. spare_rule s i) t.now p.now result }
{
    get(t, p, k, SPARE, i) == 0
}

// ---- actors
// The words of a slot's own, by its state: a free slot's are 0 apart from its age, and another's are in range.
fn form_ok(datas: u64, state: u64, priority: u64, reason: u64, age: u64, hand: u64) -> bool
    ensures { result ≡ test (form_rule datas state priority reason age hand) }
{
    if state == FREE {
        return (((priority | reason) | hand) == 0) & (age <= OLDEST);
    }
    ((state <= WAITS) & ((priority <= LAST_LEVEL) & (reason <= TIMEOUT)))
        & (((state == RUNNABLE) | (reason == 0))
            & (((1 <= age) & (age <= OLDEST)) & (hand <= datas)))
}

// The same of slot a, whose state is known.
fn formed(t: &[u64], p: &[u8], k: Caps, a: u64, state: u64) -> bool
    requires { Room k t.now p.now }
    ensures { Tests k (λ s. formed_rule k s state a) t.now p.now result }
{
    let priority = get(t, p, k, PRIORITY, a);
    let reason = get(t, p, k, REASON, a);
    let age = get(t, p, k, AGE, a);
    let hand = get(t, p, k, HAND, a);
    form_ok(k.datas as u64, state, priority, reason, age, hand)
}

// What slot a wants and its deadline are unset.
fn rests(t: &[u64], p: &[u8], k: Caps, a: u64) -> bool
    requires { Room k t.now p.now }
    ensures { Tests k (λ s. rest_rule s a) t.now p.now result }
{
    let sender = get(t, p, k, WANT_SENDER, a);
    let class = get(t, p, k, WANT_CLASS, a);
    let tag = get(t, p, k, WANT_TAG, a);
    let deadline = get(t, p, k, DEADLINE, a);
    ((sender | class) | (tag | deadline)) == 0
}

fn wait_ok(t: &[u64], p: &[u8], k: Caps, a: u64) -> bool
    requires { Room k t.now p.now }
    ensures { Tests k (λ s. wait_rule s a) t.now p.now result }
{
    let class = get(t, p, k, WANT_CLASS, a);
    let tag = get(t, p, k, WANT_TAG, a);
    let deadline = get(t, p, k, DEADLINE, a);
    let clock = get(t, p, k, CLOCK, 0);
    (tag <= ANY_TAG)
        & (((class <= ANY_CLASS) & ((class <= 4) | (class == ANY_CLASS)))
            & ((deadline == 0) | ((clock < deadline) & (deadline <= DEADLINE_END))))
}

// What slot a waits for, which is nothing where its state is another.
fn waiting_ok(t: &[u64], p: &[u8], k: Caps, a: u64, state: u64) -> bool
    requires { Room k t.now p.now }
    ensures { Tests k (λ s. waiting_rule s state a) t.now p.now result }
{
    if state == WAITS {
        return wait_ok(t, p, k, a);
    }
    rests(t, p, k, a)
}

// Slot a runs where the head names it.
fn turn_ok(t: &[u64], p: &[u8], k: Caps, a: u64, state: u64) -> bool
    requires { Room k t.now p.now × (a < MOST-ACTORS) }
    ensures { Tests k (λ s. turn_rule s state a) t.now p.now result }
{
    let runner = get(t, p, k, RUNNING, 0);
    (state == RUNS) == (runner == a + 1)
}

pub fn slot_ok(t: &[u64], p: &[u8], k: Caps, a: u64) -> bool
    requires { Room k t.now p.now × (a < MOST-ACTORS) }
    ensures { Tests k (λ s. own_rule k s a) t.now p.now result }
{
    let state = get(t, p, k, STATE, a);
    let form = formed(t, p, k, a, state);
    let waits = waiting_ok(t, p, k, a, state);
    let turn = turn_ok(t, p, k, a, state);
    form & (waits & turn)
}
