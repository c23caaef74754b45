// What an actor that ends owns goes with it: its hand and its mailbox, its monitors, its timers, its subscriptions, its slot. No notice is sent.
ghost use Rattle.std.specs.Prelude.{◌≤◌, ◌<◌};
ghost use Rattle.tables.specs.Columns.{ARRIVED, BUSES};
ghost use Rattle.tables.specs.Limits.{SAFE};
ghost use Rattle.tables.specs.State.{head, Room, Of, RoomWith, Makes};
ghost use Rattle.rules.specs.Buses.{leave_buses};
ghost use Rattle.rules.specs.Calls.{drop_monitors, drop_timers, emptied, vacate};
ghost use Rattle.actions.specs.Standing.{Standing};

use actions::dropping::drop_all;
use actions::leaving::leave_buses;
use actions::messages::let_go;
use actions::monitors::unwatch;
use actions::running::loosen;
use actions::timers::disarm;
use rules::states::FREE;
use tables::Caps;
use tables::columns::{PRIORITY, STATE, TIMER_OWNER, WATCHER};
use tables::words::{get, put};

// The hand and the mailbox of slot a are emptied.
pub fn clear(t: &mut [u64], p: &mut [u8], k: Caps, a: u64)
    requires { Room k t.old p.old × (a < SAFE) × Of k (λ s. head s ARRIVED ≤ k.mails) t.old p.old }
    ensures { Makes k (λ s. emptied s a) t.old p.old t.new p.new }
{
    let_go(t, p, k, a);
    drop_all(t, p, k, a);
}

// All monitors by which slot a watches end.
pub fn drop_monitors(t: &mut [u64], p: &[u8], k: Caps, a: u64)
    requires { Room k t.old p.now × (a < SAFE) }
    ensures { Makes k (λ s. drop_monitors a k.monitors s) t.old p.now t.new p.now }
{
    for i in 0..k.monitors as u64 {
        if get(t, p, k, WATCHER, i) == a + 1 {
            unwatch(t, p, k, i);
        }
    }
}

// All timers of slot a end.
pub fn drop_timers(t: &mut [u64], p: &[u8], k: Caps, a: u64)
    requires { Room k t.old p.now × (a < SAFE) }
    ensures { Makes k (λ s. drop_timers a k.timers s) t.old p.now t.new p.now }
{
    for i in 0..k.timers as u64 {
        if get(t, p, k, TIMER_OWNER, i) == a + 1 {
            disarm(t, p, k, i);
        }
    }
}

// All subscriptions of slot a end.
pub fn quit_buses(t: &mut [u64], p: &[u8], k: Caps, a: u64)
    requires { RoomWith k (λ s. (a < SAFE) × (head s BUSES ≤ SAFE)) t.old p.now }
    ensures { Makes k (λ s. leave_buses k a (head s BUSES) s) t.old p.now t.new p.now }
{
    leave_buses(t, p, k, a);
}

// Slot a, whose actor ran, was runnable or waited, is free. Its age stays.
pub fn vacate(t: &mut [u64], p: &[u8], k: Caps, a: u64)
    requires { RoomWith k (λ s. Standing k s a) t.old p.now }
    ensures { Makes k (λ s. vacate s a) t.old p.now t.new p.now }
{
    loosen(t, p, k, a);
    put(t, p, k, STATE, a, FREE);
    put(t, p, k, PRIORITY, a, 0);
}
