// Monitors. The slots of watcher and watched are written one up, as in the columns.
ghost use Rattle.std.specs.Prelude.{◌≤◌};
ghost use Rattle.tables.specs.Columns.{MONITOR-AGE};
ghost use Rattle.tables.specs.Limits.{OLDEST};
ghost use Rattle.tables.specs.State.{at, Room, RoomWith, Makes};
ghost use Rattle.rules.specs.Calls.{watch, unwatch};

use tables::Caps;
use tables::columns::{MONITOR_AGE, WATCHED, WATCHER};
use tables::words::{get, put};

// A use of monitor slot i begins: a watches b.
#[tactic(auto, unfolding(rules::specs::Aged::begin_use))]
pub fn watch(t: &mut [u64], p: &[u8], k: Caps, i: u64, a: u64, b: u64)
    requires { RoomWith k (λ s. at s MONITOR-AGE i ≤ OLDEST) t.old p.now }
    ensures { Makes k (λ s. watch s i a b) t.old p.now t.new p.now }
{
    let age = get(t, p, k, MONITOR_AGE, i);
    put(t, p, k, MONITOR_AGE, i, age + 1);
    put(t, p, k, WATCHER, i, a);
    put(t, p, k, WATCHED, i, b);
}

// The use of monitor slot i ends.
#[tactic(auto, unfolding(rules::specs::Aged::end_use))]
pub fn unwatch(t: &mut [u64], p: &[u8], k: Caps, i: u64)
    requires { Room k t.old p.now }
    ensures { Makes k (λ s. unwatch s i) t.old p.now t.new p.now }
{
    put(t, p, k, WATCHER, i, 0);
    put(t, p, k, WATCHED, i, 0);
}
