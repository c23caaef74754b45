// A mailbox is emptied, in one pass over the arrivals.
ghost use Rattle.std.specs.Prelude.{◌+◌, ◌≤◌, ◌<◌, cond};
ghost use Rattle.tables.specs.Columns.{ARRIVED};
ghost use Rattle.tables.specs.Limits.{SAFE};
ghost use Rattle.tables.specs.State.{head, Room, Of, RoomWith, Makes, Does};
ghost use Rattle.rules.specs.Calls.{drop_all};
ghost use Rattle.actions.specs.Emptying.{discard, mine, pull_over, sift};

use crate::messages::{disown, unfill};
use crate::queue::{data_of, is_mine};
use tables::Caps;
use tables::columns::{ARRIVAL, ARRIVED};
use tables::words::{get, put};

// The mailbox entry that arrived as the i-th is freed, with its data entry; it still stands among the arrivals.
#[tactic(auto, unfolding(crate::specs::Emptying::discard))]
fn discard(t: &mut [u64], p: &mut [u8], k: Caps, i: u64)
    requires { Room k t.old p.old }
    ensures { Makes k (λ s. discard s i) t.old p.old t.new p.new }
{
    let e = get(t, p, k, ARRIVAL, i);
    let d = data_of(t, p, k, i);
    disown(t, p, k, e);
    unfill(t, p, k, d);
}

// The i-th arrival is freed if it is slot a's; if not it stays, after those kept so far. How many are kept then.
#[tactic(auto, unfolding(crate::specs::Emptying::sift))]
fn sift(t: &mut [u64], p: &mut [u8], k: Caps, a: u64, kept: u64, i: u64) -> u64
    requires { Room k t.old p.old × (a < SAFE) × (kept < SAFE) }
    ensures { Does k (λ s. cond (mine s a i) kept (kept + 1)) (λ s. sift s a kept i) t.old p.old result t.new p.new }
{
    if is_mine(t, p, k, a, i) {
        discard(t, p, k, i);
        kept
    } else {
        let e = get(t, p, k, ARRIVAL, i);
        put(t, p, k, ARRIVAL, kept, e);
        kept + 1
    }
}

// Of the arrivals the first are kept, and the others leave.
fn cut_back(t: &mut [u64], p: &[u8], k: Caps, kept: u64)
    requires { RoomWith k (λ s. (kept ≤ head s ARRIVED) × (head s ARRIVED ≤ k.mails)) t.old p.now }
    ensures { Makes k (λ s. pull_over s kept (head s ARRIVED)) t.old p.now t.new p.now }
{
    let n = get(t, p, k, ARRIVED, 0);
    for i in kept..n {
        put(t, p, k, ARRIVAL, i, 0);
    }
    put(t, p, k, ARRIVED, 0, kept);
}

// All messages of slot a are freed, with their data entries; the other arrivals close up.
pub fn drop_all(t: &mut [u64], p: &mut [u8], k: Caps, a: u64)
    requires { Room k t.old p.old × (a < SAFE) × Of k (λ s. head s ARRIVED ≤ k.mails) t.old p.old }
    ensures { Makes k (λ s. drop_all (head s ARRIVED) s a) t.old p.old t.new p.new }
{
    let n = get(t, p, k, ARRIVED, 0);
    let mut kept = 0;
    for i in 0..n {
        kept = sift(t, p, k, a, kept, i);
    }
    cut_back(t, p, k, kept);
}
