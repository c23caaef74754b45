// Timers: after, every, cancel.
ghost use Rattle.std.specs.Prelude.{◌≡◌, false, ◌≤◌};
ghost use Rattle.tables.specs.Limits.{LONGEST};
ghost use Rattle.rules.specs.Sound.{Ready};
ghost use Rattle.rules.specs.Answers.{done_of, made_of};
ghost use Rattle.rules.specs.Calls.{after_entry, arm_entry, bad_interval, cancel_entry, every_entry, ruled};
ghost use Rattle.rules.specs.Host.{Gives};

use crate::ids::{TIMERS, among, next_id, own, running};
use actions::room::timer_for;
use actions::timers::{arm, disarm};
use rules::refusals::Refusal;
use tables::Caps;
use tables::columns::CLOCK;
use tables::limits::{LONGEST, SHORTEST_INTERVAL};
use tables::words::get;

// A new timer: its id. Not now: nobody runs; malformed: the number is bad; no room: no slot.
fn arm_in(
    t: &mut [u64],
    p: &[u8],
    k: Caps,
    delay: u64,
    interval: u64,
    bad: bool,
) -> Result<u64, Refusal>
    requires { Ready k t.old p.now × (bad ≡ false → delay ≤ LONGEST) }
    ensures { Gives (ruled (arm_entry delay interval bad)) k t.old p.now (made_of result) t.new p.now }
{
    let me = running(t, p, k)?;
    if bad {
        return Err(Refusal::Malformed);
    }
    let i = among(timer_for(t, p, k), k.timers as u64)?;
    let id = next_id(t, p, k, TIMERS, i);
    let time = get(t, p, k, CLOCK, 0) + delay;
    arm(t, p, k, i, me - 1, time, interval);
    Ok(id)
}

// A timer that fires once.
pub fn after_in(t: &mut [u64], p: &[u8], k: Caps, delay: u64) -> Result<u64, Refusal>
    requires { Ready k t.old p.now }
    ensures { Gives (ruled (after_entry delay)) k t.old p.now (made_of result) t.new p.now }
{
    arm_in(t, p, k, delay, 0, LONGEST < delay)
}

// Is it no interval? One is neither too short nor too long.
fn bad_interval(interval: u64) -> bool
    ensures { result ≡ bad_interval interval }
{
    interval < SHORTEST_INTERVAL || LONGEST < interval
}

// A timer that fires again and again, though not too fast.
pub fn every_in(t: &mut [u64], p: &[u8], k: Caps, interval: u64) -> Result<u64, Refusal>
    requires { Ready k t.old p.now }
    ensures { Gives (ruled (every_entry interval)) k t.old p.now (made_of result) t.new p.now }
{
    arm_in(t, p, k, interval, interval, bad_interval(interval))
}

// A timer of the running actor ends. Not now: nobody runs; unknown: it has no such timer.
pub fn cancel_in(t: &mut [u64], p: &[u8], k: Caps, id: u64) -> Result<(), Refusal>
    requires { Ready k t.old p.now }
    ensures { Gives (ruled (cancel_entry id)) k t.old p.now (done_of result) t.new p.now }
{
    let i = own(t, p, k, TIMERS, id)?;
    disarm(t, p, k, i);
    Ok(())
}
