// Who runs, who can run, and who waits.
ghost use Rattle.std.specs.Prelude.{◌≡◌, ◌≤◌};
ghost use Rattle.tables.specs.Columns.{QUEUED, STATE};
ghost use Rattle.tables.specs.Limits.{SAFE};
ghost use Rattle.tables.specs.State.{at, head, Of, Room, RoomWith, Makes};
ghost use Rattle.rules.specs.Terms.{RUNNABLE};
ghost use Rattle.rules.specs.Actions.{ready, unwait, wake, halt};
ghost use Rattle.rules.specs.Calls.{loosen, unqueue};
ghost use Rattle.actions.specs.Standing.{Standing};

use crate::queue::queue_place;
use rules::states::RUNNABLE;
use tables::Caps;
use tables::columns::{
    DEADLINE, QUEUE, QUEUED, REASON, RUNNING, STATE, WANT_CLASS, WANT_SENDER, WANT_TAG,
};
use tables::lists::{pull, push};
use tables::words::{get, put};

// Slot a becomes runnable for a reason, and joins the tail of the queue.
pub fn ready(t: &mut [u64], p: &[u8], k: Caps, a: u64, reason: u64)
    requires { RoomWith k (λ s. head s QUEUED ≤ SAFE) t.old p.now }
    ensures { Makes k (λ s. ready s a reason) t.old p.now t.new p.now }
{
    put(t, p, k, STATE, a, RUNNABLE);
    put(t, p, k, REASON, a, reason);
    push(t, p, k, QUEUE, QUEUED, a);
}

// Slot a waits no more.
#[tactic(auto, unfolding(rules::specs::Actions::unwait))]
pub fn unwait(t: &mut [u64], p: &[u8], k: Caps, a: u64)
    requires { Room k t.old p.now }
    ensures { Makes k (λ s. unwait s a) t.old p.now t.new p.now }
{
    put(t, p, k, WANT_SENDER, a, 0);
    put(t, p, k, WANT_CLASS, a, 0);
    put(t, p, k, WANT_TAG, a, 0);
    put(t, p, k, DEADLINE, a, 0);
}

// Slot a, which waits, becomes runnable.
pub fn wake(t: &mut [u64], p: &[u8], k: Caps, a: u64, reason: u64)
    requires { RoomWith k (λ s. head s QUEUED ≤ SAFE) t.old p.now }
    ensures { Makes k (λ s. wake s a reason) t.old p.now t.new p.now }
{
    unwait(t, p, k, a);
    ready(t, p, k, a, reason);
}

// Nobody runs.
pub fn halt(t: &mut [u64], p: &[u8], k: Caps)
    requires { Room k t.old p.now }
    ensures { Makes k halt t.old p.now t.new p.now }
{
    put(t, p, k, RUNNING, 0, 0);
}

// Slot a, which is runnable, leaves the queue.
#[tactic(auto, unfolding(rules::specs::Calls::unqueue))]
pub fn unqueue(t: &mut [u64], p: &[u8], k: Caps, a: u64)
    requires { Room k t.old p.now × Of k (λ s. Standing k s a) t.old p.now × Of k (λ s. at s STATE a ≡ RUNNABLE) t.old p.now }
    ensures { Makes k (λ s. unqueue s a) t.old p.now t.new p.now }
{
    let j = queue_place(t, p, k, a);
    pull(t, p, k, QUEUE, QUEUED, j);
    put(t, p, k, REASON, a, 0);
}

// Slot a runs, is runnable or waits no more.
#[tactic(auto, unfolding(rules::specs::Calls::loosen))]
pub fn loosen(t: &mut [u64], p: &[u8], k: Caps, a: u64)
    requires { RoomWith k (λ s. Standing k s a) t.old p.now }
    ensures { Makes k (λ s. loosen s a) t.old p.now t.new p.now }
{
    if get(t, p, k, RUNNING, 0) == a + 1 {
        halt(t, p, k);
    } else if get(t, p, k, STATE, a) == RUNNABLE {
        unqueue(t, p, k, a);
    } else {
        unwait(t, p, k, a);
    }
}
