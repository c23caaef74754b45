// Who runs: spawn, next, yield; and report.
ghost use Rattle.std.specs.Prelude.{◌<◌, ◌≤◌};
ghost use Rattle.tables.specs.Columns.{AGE, PRIORITY, QUEUED, REASON};
ghost use Rattle.tables.specs.Limits.{ACTOR-FACTOR, OLDEST, SAFE};
ghost use Rattle.tables.specs.State.{at, head, poke, RoomWith, Makes, Does};
ghost use Rattle.rules.specs.Sound.{Ready};
ghost use Rattle.rules.specs.Aged.{actor_pool, older};
ghost use Rattle.rules.specs.Terms.{actor_id};
ghost use Rattle.rules.specs.Actions.{ready};
ghost use Rattle.rules.specs.declared.refusals.Next.TheVariants.{Runs};
ghost use Rattle.rules.specs.Answers.{done_of, made_of, next_of, report_of};
ghost use Rattle.rules.specs.Calls.{next_entry, report_entry, ruled, run, spawn_entry, yield_entry};
ghost use Rattle.rules.specs.Host.{Gives};

use crate::ids::{ACTORS, actor_id, among, next_id, running};
use crate::sleeping::sleep;
use actions::queue::first_head;
use actions::room::slot_for;
use actions::running::{halt, ready};
use rules::refusals::{Next, Refusal};
use rules::states::RUNS;
use tables::Caps;
use tables::columns::{
    AGE, DATA_FREE, LINK_ONE, MAIL_FREE, MONITOR_AGE, PRIORITY, QUEUE, QUEUED, REASON, RUNNING,
    STATE, TIMER_AGE, TIMER_OWNER, WATCHER,
};
use tables::free::{count_bits, count_slots, count_unused};
use tables::limits::{LAST_LEVEL, OLDEST};
use tables::lists::pull;
use tables::words::{get, put};

// ---- spawn
// A use of slot a begins, at the tail of its level.
fn begin(t: &mut [u64], p: &[u8], k: Caps, a: u64, priority: u64)
    requires { RoomWith k (λ s. (at s AGE a ≤ OLDEST) × (head s QUEUED ≤ SAFE)) t.old p.now }
    ensures { Makes k (λ s. ready (poke (older actor_pool s a) PRIORITY a priority) a 0) t.old p.now t.new p.now }
{
    let age = get(t, p, k, AGE, a);
    put(t, p, k, AGE, a, age + 1);
    put(t, p, k, PRIORITY, a, priority);
    ready(t, p, k, a, 0);
}

// A new actor: its id. Malformed: no such priority; no room: no slot.
pub fn spawn_in(t: &mut [u64], p: &[u8], k: Caps, priority: u64) -> Result<u64, Refusal>
    requires { Ready k t.old p.now }
    ensures { Gives (ruled (spawn_entry priority)) k t.old p.now (made_of result) t.new p.now }
{
    if LAST_LEVEL < priority {
        return Err(Refusal::Malformed);
    }
    let a = among(slot_for(t, p, k), k.actors as u64)?;
    let id = next_id(t, p, k, ACTORS, a);
    begin(t, p, k, a, priority);
    Ok(id)
}

// ---- next
// Slot a, the j-th of the queue, runs.
fn run(t: &mut [u64], p: &[u8], k: Caps, a: u64, j: u64)
    requires { RoomWith k (λ s. (a < ACTOR-FACTOR) × (j < head s QUEUED) × (head s QUEUED ≤ k.actors)) t.old p.now }
    ensures { Makes k (λ s. run s a j) t.old p.now t.new p.now }
{
    pull(t, p, k, QUEUE, QUEUED, j);
    put(t, p, k, STATE, a, RUNS);
    put(t, p, k, REASON, a, 0);
    put(t, p, k, RUNNING, 0, a + 1);
}

// The same, with who it is and why it was runnable.
fn take_turn(t: &mut [u64], p: &[u8], k: Caps, a: u64, j: u64) -> Next
    requires { RoomWith k (λ s. (a < ACTOR-FACTOR) × (at s AGE a ≤ OLDEST) × (j < head s QUEUED) × (head s QUEUED ≤ k.actors)) t.old p.now }
    ensures { Does k (λ s. Runs (actor_id s a) (at s REASON a)) (λ s. run s a j) t.old p.now result t.new p.now }
{
    let id = actor_id(t, p, k, a);
    let reason = get(t, p, k, REASON, a);
    run(t, p, k, a, j);
    Next::Runs { id, reason }
}

// The head of the first level that is not empty runs; idle: nobody can run. Not now: somebody runs.
pub fn next_in(t: &mut [u64], p: &[u8], k: Caps) -> Result<Next, Refusal>
    requires { Ready k t.old p.now }
    ensures { Gives (ruled next_entry) k t.old p.now (next_of result) t.new p.now }
{
    if get(t, p, k, RUNNING, 0) != 0 {
        return Err(Refusal::NotNow);
    }
    let j = first_head(t, p, k);
    if j < get(t, p, k, QUEUED, 0) {
        let a = get(t, p, k, QUEUE, j);
        return Ok(take_turn(t, p, k, a, j));
    }
    Ok(Next::Idle {
        sleep: sleep(t, p, k),
    })
}

// ---- yield
// The running actor goes to the tail of its level. Not now: nobody runs.
pub fn yield_in(t: &mut [u64], p: &[u8], k: Caps) -> Result<(), Refusal>
    requires { Ready k t.old p.now }
    ensures { Gives (ruled yield_entry) k t.old p.now (done_of result) t.new p.now }
{
    let me = running(t, p, k)?;
    halt(t, p, k);
    ready(t, p, k, me - 1, 0);
    Ok(())
}

// ---- report
// The free entries of the six pools.
pub fn report_in(t: &[u64], p: &[u8], k: Caps) -> [u64; 6]
    requires { Ready k t.now p.now }
    ensures { Gives (ruled report_entry) k t.now p.now (report_of (Ok result)) t.now p.now }
{
    [
        count_slots(t, p, k, STATE, AGE, OLDEST),
        count_bits(t, p, k, MAIL_FREE, k.mails),
        count_bits(t, p, k, DATA_FREE, k.datas),
        count_unused(t, p, k, LINK_ONE),
        count_slots(t, p, k, WATCHER, MONITOR_AGE, OLDEST),
        count_slots(t, p, k, TIMER_OWNER, TIMER_AGE, OLDEST),
    ]
}
