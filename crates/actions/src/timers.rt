// Timers.
ghost use Rattle.std.specs.Prelude.{◌≡◌, ◌≤◌, ◌<◌};
ghost use Rattle.tables.specs.Columns.{CLOCK, DUE, INTERVAL, TIMER-AGE};
ghost use Rattle.tables.specs.Limits.{CLOCK-END, LONGEST, OLDEST, SAFE};
ghost use Rattle.tables.specs.State.{at, head, Room, RoomWith, Makes};
ghost use Rattle.rules.specs.Calls.{arm, disarm, next_beat, rearm};

use tables::Caps;
use tables::columns::{CLOCK, DUE, INTERVAL, TIMER_AGE, TIMER_OWNER};
use tables::words::{get, put};

// A use of timer slot i begins: it is slot a's, and due at a time. An interval of 0 is a one-shot's.
#[tactic(auto, unfolding(rules::specs::Aged::begin_use))]
pub fn arm(t: &mut [u64], p: &[u8], k: Caps, i: u64, a: u64, time: u64, interval: u64)
    requires { RoomWith k (λ s. (at s TIMER-AGE i ≤ OLDEST) × (a < SAFE)) t.old p.now }
    ensures { Makes k (λ s. arm s i a time interval) t.old p.now t.new p.now }
{
    let age = get(t, p, k, TIMER_AGE, i);
    put(t, p, k, TIMER_AGE, i, age + 1);
    put(t, p, k, TIMER_OWNER, i, a + 1);
    put(t, p, k, DUE, i, time);
    put(t, p, k, INTERVAL, i, interval);
}

// The use of timer slot i ends.
#[tactic(auto, unfolding(rules::specs::Aged::end_use))]
pub fn disarm(t: &mut [u64], p: &[u8], k: Caps, i: u64)
    requires { Room k t.old p.now }
    ensures { Makes k (λ s. disarm s i) t.old p.now t.new p.now }
{
    put(t, p, k, TIMER_OWNER, i, 0);
    put(t, p, k, DUE, i, 0);
    put(t, p, k, INTERVAL, i, 0);
}

// The first time past the clock that is a whole number of intervals after a due time that has come.
#[tactic(auto, unfolding(rules::specs::Calls::next_beat))]
fn next_beat(due: u64, interval: u64, clock: u64) -> u64
    requires { (due ≤ clock) × (clock ≤ CLOCK-END) × (1 ≤ interval) × (interval ≤ LONGEST) }
    ensures { result ≡ next_beat due interval clock }
{
    due + interval * ((clock - due) / interval + 1)
}

// Timer i, whose time has come, fires: a one-shot ends, a periodic one is due again on its next beat.
#[tactic(auto, unfolding(rules::specs::Calls::rearm))]
pub fn rearm(t: &mut [u64], p: &[u8], k: Caps, i: u64)
    requires { RoomWith k (λ s. (at s DUE i ≤ head s CLOCK) × (head s CLOCK ≤ CLOCK-END) × (at s INTERVAL i ≤ LONGEST)) t.old p.now }
    ensures { Makes k (λ s. rearm s i) t.old p.now t.new p.now }
{
    let interval = get(t, p, k, INTERVAL, i);
    if interval == 0 {
        disarm(t, p, k, i);
    } else {
        let due = get(t, p, k, DUE, i);
        let clock = get(t, p, k, CLOCK, 0);
        put(t, p, k, DUE, i, next_beat(due, interval, clock));
    }
}
