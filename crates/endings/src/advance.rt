// Advance: the clock is raised, due timers fire, the overdue wake, and what has reached its age ends.
ghost use Rattle.std.specs.Prelude.{◌≡◌, true, ◌≤◌, ◌<◌, length};
ghost use Rattle.records.specs.Header.{packed};
ghost use Rattle.records.specs.Records.{tick_bytes};
ghost use Rattle.tables.specs.Limits.{SAFE};
ghost use Rattle.tables.specs.State.{RoomWith, Makes, Does};
ghost use Rattle.rules.specs.Sound.{Ready};
ghost use Rattle.rules.specs.Actions.{has_room, post};
ghost use Rattle.rules.specs.Answers.{advanced_of};
ghost use Rattle.rules.specs.Calls.{advance_entry, fire, fire_all, fired, rouse, ruled};
ghost use Rattle.rules.specs.Host.{Gives};
ghost use Rattle.endings.specs.Asked.{Short, Fires, Raised};
ghost use Rattle.endings.specs.Order.{Waiting};

use crate::order::due_timers;
use actions::airing::air_all;
use actions::messages::post;
use actions::room::has_room;
use actions::running::wake;
use actions::timers::rearm;
use actions::times::earliest;
use records::header::pack;
use records::tick::{TICK_BYTES, put_tick};
use rules::refusals::Refusal;
use rules::states::TIMEOUT;
use tables::Caps;
use tables::columns::{CLOCK, DEADLINE, TIMER_AGE, TIMER_OWNER};
use tables::limits::{CLOCK_END, LONGEST, MOST_TIMERS, TIMER_FACTOR};
use tables::words::{get, put};

// The class of a tick.
const TICK: u32 = 3;

// ---- timers
// The tick of a timer goes to slot a.
fn send_tick(t: &mut [u64], p: &mut [u8], k: Caps, a: u64, id: u64)
    requires { RoomWith k (λ s. (has_room k s ≡ true) × Short s × (a < SAFE)) t.old p.old }
    ensures { Makes k (λ s. post k s a 0 (packed 3 1 0) (tick_bytes id)) t.old p.old t.new p.new }
{
    let mut bytes = [0u8; TICK_BYTES];
    put_tick(&mut bytes, 0, id);
    post(t, p, k, a, 0, pack(TICK, 1, 0), &bytes);
}

// Timer i fires.
fn fire(t: &mut [u64], p: &mut [u8], k: Caps, i: u64)
    requires { RoomWith k (λ s. Fires k s i) t.old p.old }
    ensures { Makes k (λ s. fire k s i) t.old p.old t.new p.new }
{
    let owner = get(t, p, k, TIMER_OWNER, i);
    let age = get(t, p, k, TIMER_AGE, i);
    rearm(t, p, k, i);
    send_tick(t, p, k, owner - 1, age * TIMER_FACTOR + i);
}

// The due timers, which stand in a row, fire from the last on, while both message pools have room. How many did?
fn fire_row(t: &mut [u64], p: &mut [u8], k: Caps, row: &[u64]) -> u64
    requires { RoomWith k (λ s. Raised k s × Waiting k s (length row.now) row.now × (length row.now ≤ k.timers)) t.old p.old }
    ensures { Does k (λ s. (fire_all k k.timers (fired 0 s)).count) (λ s. (fire_all k k.timers (fired 0 s)).state) t.old p.old result t.new p.new }
{
    let mut count: u64 = 0;
    for i in row.iter().rev() {
        if !has_room(t, p, k) {
            return count;
        }
        fire(t, p, k, *i);
        count += 1;
    }
    count
}

// The due timers fire, by due time, equal ones by lower slot, while both message pools have room. How many did?
fn fire_all(t: &mut [u64], p: &mut [u8], k: Caps) -> u64
    requires { RoomWith k (Raised k) t.old p.old }
    ensures { Does k (λ s. (fire_all k k.timers (fired 0 s)).count) (λ s. (fire_all k k.timers (fired 0 s)).state) t.old p.old result t.new p.new }
{
    let clock = get(t, p, k, CLOCK, 0);
    let mut places = [0u64; MOST_TIMERS];
    let m = due_timers(t, p, k, clock, &mut places);
    fire_row(t, p, k, &places[..m])
}

// ---- deadlines
// The waiting actors whose deadline is at or before the clock become runnable, by deadline, then slot.
fn rouse(t: &mut [u64], p: &[u8], k: Caps)
    requires { RoomWith k (Raised k) t.old p.now }
    ensures { Makes k (rouse k k.actors) t.old p.now t.new p.now }
{
    let clock = get(t, p, k, CLOCK, 0);
    let n = k.actors as u64;
    for _ in 0..n {
        let Some(a) = earliest(t, p, k, DEADLINE, DEADLINE, clock, n).checked_sub(1) else {
            return;
        };
        wake(t, p, k, a, TIMEOUT);
    }
}

// ---- all of it
// The clock is raised, unless by too much, or past its end. How many timers fired?
pub fn advance_in(t: &mut [u64], p: &mut [u8], k: Caps, micros: u64) -> Result<u64, Refusal>
    requires { Ready k t.old p.old }
    ensures { Gives (ruled (advance_entry micros)) k t.old p.old (advanced_of result) t.new p.new }
{
    if LONGEST < micros {
        return Err(Refusal::Malformed);
    }
    let clock = get(t, p, k, CLOCK, 0) + micros;
    if CLOCK_END < clock {
        return Err(Refusal::Malformed);
    }
    put(t, p, k, CLOCK, 0, clock);
    let fired = fire_all(t, p, k);
    rouse(t, p, k);
    air_all(t, p, k);
    Ok(fired)
}
