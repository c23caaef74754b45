// The rules of all entries of a kind: a loop for each kind, so that it is compiled for the columns that it reads.
ghost use Rattle.rules.specs.Rule.{both, each};
ghost use Rattle.rules.specs.Sound.{spare_rule, slot_rule, box_rule};
ghost use Rattle.rules.specs.Host.{Tests};
ghost use Rattle.sound.specs.Kinds.{own_rule, filter_rules};
ghost use Rattle.sound.specs.Standing.{Standing};
ghost use Rattle.tables.specs.Columns.{STATE};
ghost use Rattle.tables.specs.Sizes.{SPARES};
ghost use Rattle.tables.specs.State.{Room, RoomWith};

use crate::entries::{slot_ok, spare_ok};
use crate::lists::list_ok;
use crate::mails::kept;
use tables::Caps;
use tables::columns::{ARRIVAL, ARRIVED, QUEUE, QUEUED};
use tables::sizes::SPARES;
use tables::words::{column, get};

pub fn spares(t: &[u64], p: &[u8], k: Caps) -> bool
    requires { Room k t.now p.now }
    ensures { Tests k (λ s. each SPARES (λ i. spare_rule s i)) t.now p.now result }
{
    (0..SPARES as u64).all(|i| spare_ok(t, p, k, i))
}

// The words of each slot.
fn owns(t: &[u64], p: &[u8], k: Caps) -> bool
    requires { Room k t.now p.now }
    ensures { Tests k (λ s. each k.actors (λ i. own_rule k s i)) t.now p.now result }
{
    let mut ok = true;
    for i in 0..k.actors as u64 {
        ok &= slot_ok(t, p, k, i);
    }
    ok
}

// The slots, and then the queue.
pub fn slots(t: &[u64], p: &[u8], k: Caps) -> bool
    requires { Room k t.now p.now }
    ensures { Tests k (λ s. each k.actors (λ i. slot_rule k s i)) t.now p.now result }
{
    let owns = owns(t, p, k);
    let count = get(t, p, k, QUEUED, 0);
    let list = list_ok(column(t, p, k, QUEUE), count, k.actors);
    owns & list
}

// The mailbox entries, and then the list of arrivals.
pub fn boxes(t: &[u64], p: &[u8], k: Caps, row: &[u8]) -> bool
    requires { RoomWith k (λ s. Standing (s STATE) row.now) t.now p.now }
    ensures { Tests k (λ s. both (each k.mails (λ i. box_rule k s i)) (filter_rules k s)) t.now p.now result }
{
    let kept = kept(t, p, k, row);
    let count = get(t, p, k, ARRIVED, 0);
    let list = list_ok(column(t, p, k, ARRIVAL), count, k.mails);
    kept & list
}
