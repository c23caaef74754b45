// What calls ask first: who runs, whom or what an id names, and whether there is room. Each answers what it found, or why the call is refused.
ghost use Rattle.std.specs.Prelude.{◌≡◌, ◌+◌, ◌<◌, ◌≤◌, eqb, ltb, not};
ghost use Rattle.pools.specs.Slot.{id_of, slot_of};
ghost use Rattle.tables.specs.Columns.{AGE, REST};
ghost use Rattle.tables.specs.Limits.{ACTOR-FACTOR, OLDEST};
ghost use Rattle.tables.specs.State.{at, Room, RoomWith, Reads};
ghost use Rattle.rules.specs.declared.refusals.Refusal.TheVariants.{NoRoom, NotNow, Unknown};
ghost use Rattle.rules.specs.Sound.{Ready};
ghost use Rattle.rules.specs.Terms.{actor_id, is_actor, runner};
ghost use Rattle.calls.specs.Parts.{other_of, own_of, unless};

use rules::refusals::Refusal;
use tables::Caps;
use tables::columns::{AGE, MONITOR_AGE, RUNNING, STATE, TIMER_AGE, TIMER_OWNER, WATCHER};
use tables::free::is_live;
use tables::limits::{ACTOR_FACTOR, MONITOR_FACTOR, TIMER_FACTOR};
use tables::words::get;

// ---- actors, timers and monitors
// The columns that say who uses a slot, or what an actor does, and how often it was used; and the factor of its ids.
#[derive(Clone, Copy)]
pub(crate) struct Uses {
    pub owners: usize,
    pub ages: usize,
    pub factor: u64,
}

pub(crate) const ACTORS: Uses = Uses {
    owners: STATE,
    ages: AGE,
    factor: ACTOR_FACTOR,
};

pub(crate) const TIMERS: Uses = Uses {
    owners: TIMER_OWNER,
    ages: TIMER_AGE,
    factor: TIMER_FACTOR,
};

pub(crate) const MONITORS: Uses = Uses {
    owners: WATCHER,
    ages: MONITOR_AGE,
    factor: MONITOR_FACTOR,
};

// ---- who runs
// The running actor, its slot written one up. Not now: nobody runs.
pub(crate) fn running(t: &[u64], p: &[u8], k: Caps) -> Result<u64, Refusal>
    requires { Room k t.now p.now }
    ensures { Reads k (λ s. unless (eqb (runner s) 0) NotNow (runner s)) t.now p.now result }
{
    let r = get(t, p, k, RUNNING, 0);
    if r == 0 {
        return Err(Refusal::NotNow);
    }
    Ok(r)
}

// ---- actors
// The id of the present use of slot a.
pub fn actor_id(t: &[u64], p: &[u8], k: Caps, a: u64) -> u64
    requires { RoomWith k (λ s. (a < ACTOR-FACTOR) × (at s AGE a ≤ OLDEST)) t.now p.now }
    ensures { Reads k (λ s. actor_id s a) t.now p.now result }
{
    get(t, p, k, AGE, a) * ACTOR_FACTOR + a
}

// Is id that of a live actor?
pub fn is_actor(t: &[u64], p: &[u8], k: Caps, id: u64) -> bool
    requires { Room k t.now p.now }
    ensures { Reads k (λ s. is_actor s id) t.now p.now result }
{
    is_live(t, p, k, STATE, AGE, ACTOR_FACTOR, id)
}

// The slot of a live actor, by its id. Unknown: there is none.
pub(crate) fn actor(t: &[u64], p: &[u8], k: Caps, id: u64) -> Result<u64, Refusal>
    requires { Room k t.now p.now }
    ensures { Reads k (λ s. unless (not (is_actor s id)) Unknown (slot_of ACTOR-FACTOR id)) t.now p.now result }
{
    if !is_actor(t, p, k, id) {
        return Err(Refusal::Unknown);
    }
    Ok(id % ACTOR_FACTOR)
}

// The slot of another actor than the running one, which is of slot me written one up. Malformed: it is itself; unknown: there is none.
pub(crate) fn other(t: &[u64], p: &[u8], k: Caps, me: u64, id: u64) -> Result<u64, Refusal>
    requires { Ready k t.now p.now × Reads k runner t.now p.now me × (0 < me) }
    ensures { Reads k (λ s. other_of s id) t.now p.now result }
{
    if id == actor_id(t, p, k, me - 1) {
        return Err(Refusal::Malformed);
    }
    actor(t, p, k, id)
}

// ---- timers and monitors
// The slot of a present use of the running actor's own, by its id. Not now: nobody runs; unknown: it has no such use.
pub(crate) fn own(t: &[u64], p: &[u8], k: Caps, uses: Uses, id: u64) -> Result<u64, Refusal>
    requires { Room k t.now p.now × (uses.owners < REST) × (uses.ages < REST) × (0 < uses.factor) }
    ensures { Reads k (λ s. own_of uses.owners uses.ages uses.factor s id) t.now p.now result }
{
    let me = running(t, p, k)?;
    let slot = id % uses.factor;
    let live = is_live(t, p, k, uses.owners, uses.ages, uses.factor, id);
    if live && get(t, p, k, uses.owners, slot) == me {
        return Ok(slot);
    }
    Err(Refusal::Unknown)
}

// The id of the next use of a slot.
pub(crate) fn next_id(t: &[u64], p: &[u8], k: Caps, uses: Uses, slot: u64) -> u64
    requires { RoomWith k (λ s. (uses.ages < REST) × (slot < uses.factor) × (uses.factor ≤ ACTOR-FACTOR) × (at s uses.ages slot ≤ OLDEST)) t.now p.now }
    ensures { Reads k (λ s. id_of uses.factor (at s uses.ages slot + 1) slot) t.now p.now result }
{
    (get(t, p, k, uses.ages, slot) + 1) * uses.factor + slot
}

// ---- room
// The entry that is to be taken, if it is one of the first n. No room: it is past them.
pub(crate) fn among(entry: u64, n: u64) -> Result<u64, Refusal>
    ensures { result ≡ unless (not (ltb entry n)) NoRoom entry }
{
    if entry < n {
        return Ok(entry);
    }
    Err(Refusal::NoRoom)
}
