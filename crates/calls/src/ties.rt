// What ties two actors: link, unlink, monitor, demonitor.
ghost use Rattle.rules.specs.Sound.{Ready};
ghost use Rattle.rules.specs.Answers.{done_of, made_of};
ghost use Rattle.rules.specs.Calls.{demonitor_entry, link_entry, monitor_entry, ruled, unlink_entry};
ghost use Rattle.rules.specs.Host.{Gives};

use crate::ids::{MONITORS, actor, among, next_id, other, own, running};
use actions::links::{link_of, tie};
use actions::monitors::{unwatch, watch};
use actions::room::{link_for, monitor_for};
use rules::refusals::Refusal;
use tables::Caps;

// ---- links
// The running actor and a partner are linked, if they are not yet.
// Not now: nobody runs; malformed: it is itself; unknown: no such actor; no room: no entry.
pub fn link_in(t: &mut [u64], p: &[u8], k: Caps, partner: u64) -> Result<(), Refusal>
    requires { Ready k t.old p.now }
    ensures { Gives (ruled (link_entry partner)) k t.old p.now (done_of result) t.new p.now }
{
    let me = running(t, p, k)?;
    let it = other(t, p, k, me, partner)?;
    if link_of(t, p, k, me, it + 1) < k.links as u64 {
        return Ok(());
    }
    let e = among(link_for(t, p, k), k.links as u64)?;
    tie(t, p, k, e, me, it + 1);
    Ok(())
}

// A link of the running actor is taken back. Not now: nobody runs; unknown: no such link.
pub fn unlink_in(t: &mut [u64], p: &[u8], k: Caps, partner: u64) -> Result<(), Refusal>
    requires { Ready k t.old p.now }
    ensures { Gives (ruled (unlink_entry partner)) k t.old p.now (done_of result) t.new p.now }
{
    let me = running(t, p, k)?;
    let it = actor(t, p, k, partner)?;
    let e = link_of(t, p, k, me, it + 1);
    if k.links as u64 <= e {
        return Err(Refusal::Unknown);
    }
    tie(t, p, k, e, 0, 0);
    Ok(())
}

// ---- monitors
// The running actor watches another: the id of the monitor. Not now: nobody runs; malformed: it is itself; unknown: no such actor; no room: no slot.
pub fn monitor_in(t: &mut [u64], p: &[u8], k: Caps, target: u64) -> Result<u64, Refusal>
    requires { Ready k t.old p.now }
    ensures { Gives (ruled (monitor_entry target)) k t.old p.now (made_of result) t.new p.now }
{
    let me = running(t, p, k)?;
    let it = other(t, p, k, me, target)?;
    let i = among(monitor_for(t, p, k), k.monitors as u64)?;
    let id = next_id(t, p, k, MONITORS, i);
    watch(t, p, k, i, me, it + 1);
    Ok(id)
}

// A monitor of the running actor ends. Not now: nobody runs; unknown: it has no such monitor.
pub fn demonitor_in(t: &mut [u64], p: &[u8], k: Caps, id: u64) -> Result<(), Refusal>
    requires { Ready k t.old p.now }
    ensures { Gives (ruled (demonitor_entry id)) k t.old p.now (done_of result) t.new p.now }
{
    let i = own(t, p, k, MONITORS, id)?;
    unwatch(t, p, k, i);
    Ok(())
}
