// How long the host may sleep while nobody can run.
ghost use Rattle.std.specs.Prelude.{◌≡◌, ◌-◌, ◌<◌, ◌≤◌, ◌^◌, cond, eqb, pos, IfSome};
ghost use Rattle.tables.specs.Columns.{REST};
ghost use Rattle.tables.specs.Limits.{ALWAYS};
ghost use Rattle.tables.specs.State.{at, size, Room, Reads};
ghost use Rattle.rules.specs.Sound.{Ready};
ghost use Rattle.rules.specs.Actions.{earliest};
ghost use Rattle.rules.specs.Calls.{sleep};
ghost use Rattle.calls.specs.Parts.{sleep_until};

use actions::times::earliest;
use tables::Caps;
use tables::columns::{CLOCK, DEADLINE, DUE, TIMER_OWNER};
use tables::limits::ALWAYS;
use tables::words::get;

// The earliest time of the first n entries in use; none where none is.
fn soonest(t: &[u64], p: &[u8], k: Caps, used: usize, time: usize, n: u64) -> Option<u64>
    requires { Room k t.now p.now × (used < REST) × (time < REST) × (n ≤ size k used) × (n ≤ size k time) }
    ensures { Reads k (λ s. cond (eqb (earliest s used time ALWAYS n) 0) None (Some (at s time (earliest s used time ALWAYS n - 1)))) t.now p.now result }
{
    let entry = earliest(t, p, k, used, time, ALWAYS, n);
    if entry == 0 {
        return None;
    }
    Some(get(t, p, k, time, entry - 1))
}

// How long it is until a time; 0 where it is past.
fn until(clock: u64, time: u64) -> i64
    requires { time < 2 ^ 63 }
    ensures { result ≡ pos (time - clock) }
{
    time.saturating_sub(clock) as i64
}

// How long it is until the earlier of a timer's due time and a waiter's deadline; -1 where there is neither.
fn sleep_until(clock: u64, due: Option<u64>, deadline: Option<u64>) -> i64
    requires due { IfSome due (λ n. n < 2 ^ 63) }
    requires deadline { IfSome deadline (λ n. n < 2 ^ 63) }
    ensures { result ≡ sleep_until clock due deadline }
{
    match (due, deadline) {
        (None, None) => -1,
        (Some(time), None) | (None, Some(time)) => until(clock, time),
        (Some(due), Some(deadline)) => until(clock, due.min(deadline)),
    }
}

// How long it is until the next timer or deadline; -1 where there is none.
pub fn sleep(t: &[u64], p: &[u8], k: Caps) -> i64
    requires { Ready k t.now p.now }
    ensures { Reads k (sleep k) t.now p.now result }
{
    let clock = get(t, p, k, CLOCK, 0);
    let due = soonest(t, p, k, TIMER_OWNER, DUE, k.timers as u64);
    let deadline = soonest(t, p, k, DEADLINE, DEADLINE, k.actors as u64);
    sleep_until(clock, due, deadline)
}
