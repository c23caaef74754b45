// A refusal for want of room: which pool was full, and what held it.
use crate::buses::{bus_holders, tell_seats};
use crate::named::{Held, InHand, Link, MonitorBy, Timer, Unread, count};
use crate::record::{Record, Refusal};
use crate::six::Six;
use crate::states::State;
use crate::view::View;
use crate::words::{Call, Caller, Counted, Head};
use std::io;
use tables::columns::{
    ACTORS, AGE, BUSES, DATAS, LINKS, MAILS, MONITOR_AGE, MONITORS, STATE, TIMER_AGE, TIMER_OWNER,
    TIMERS, WATCHER,
};
use tables::limits::{MOST_ACTORS, OLDEST};
use trace::kind::Kind;

// Does a call of this kind need room?
pub fn needs_room(kind: Kind) -> bool {
    matches!(
        kind,
        Kind::Spawn
            | Kind::Notify
            | Kind::After
            | Kind::Every
            | Kind::Link
            | Kind::Monitor
            | Kind::Bus
            | Kind::Publish
            | Kind::Subscribe
    )
}

// None of so many is free.
fn none_free(rt: &impl Print, what: &str, size: u64) -> io::Result<()> {
    println!(rt; "  {what}: none of {size} is free")
}

// How much of a sort the track in a slot has, where it has any.
fn holder<H: Held>(rt: &impl Print, view: View<'_>, slot: usize, note: &str) -> io::Result<()> {
    let n = count::<H>(view, slot);
    if n == 0 {
        return Ok(());
    }
    let track = view.track_in(slot);
    println!(rt; "    track {track} has {n}{note}")
}

// How much of a sort each track has.
fn holders<H: Held>(rt: &impl Print, view: View<'_>, note: &str) -> io::Result<()> {
    for slot in 0..MOST_ACTORS {
        if view.lives(slot) {
            holder::<H>(rt, view, slot, note)?;
        }
    }
    Ok(())
}

// How many slots have had their last use: nobody holds them, and they are as old as can be.
fn worn(rt: &impl Print, view: View<'_>, holder: usize, age: usize) -> io::Result<()> {
    let slots = view.column(holder).iter().zip(view.column(age));
    let n = slots
        .filter(|(holder, age)| **holder == 0 && **age == OLDEST)
        .count();
    if n == 0 {
        return Ok(());
    }
    let slots = Counted(n as u64, "slot is", "slots are");
    println!(rt; "    {slots} worn out")
}

// The tracks were full: what each is about.
fn tell_tracks(rt: &impl Print, view: View<'_>) -> io::Result<()> {
    none_free(rt, "tracks", view.head(ACTORS))?;
    for slot in 0..MOST_ACTORS {
        if view.lives(slot) {
            let track = view.track_in(slot);
            let state = State { view, slot };
            println!(rt; "    track {track}, {state}")?;
        }
    }
    worn(rt, view, STATE, AGE)
}

fn tell_mails(rt: &impl Print, view: View<'_>) -> io::Result<()> {
    none_free(rt, "mailbox entries", view.head(MAILS))?;
    holders::<Unread>(rt, view, " unread")
}

// The data entries: a message in hand has one too, and so has what was published.
fn tell_datas(rt: &impl Print, view: View<'_>) -> io::Result<()> {
    none_free(rt, "data entries", view.head(DATAS))?;
    for slot in 0..MOST_ACTORS {
        if view.lives(slot) {
            holder::<Unread>(rt, view, slot, " unread")?;
            holder::<InHand>(rt, view, slot, " in hand")?;
        }
    }
    bus_holders(rt, view)
}

fn tell_links(rt: &impl Print, view: View<'_>) -> io::Result<()> {
    none_free(rt, "links", view.head(LINKS))?;
    holders::<Link>(rt, view, "")
}

fn tell_monitors(rt: &impl Print, view: View<'_>) -> io::Result<()> {
    none_free(rt, "monitors", view.head(MONITORS))?;
    holders::<MonitorBy>(rt, view, "")?;
    worn(rt, view, WATCHER, MONITOR_AGE)
}

fn tell_timers(rt: &impl Print, view: View<'_>) -> io::Result<()> {
    none_free(rt, "timers", view.head(TIMERS))?;
    holders::<Timer>(rt, view, "")?;
    worn(rt, view, TIMER_OWNER, TIMER_AGE)
}

// What the call needed that was full: a pool, the seats of a bus, or the buses.
fn tell_what(rt: &impl Print, view: View<'_>, free: Six, r: Record<'_>) -> io::Result<()> {
    match r.kind {
        Kind::Spawn if free.tracks == 0 => tell_tracks(rt, view),
        Kind::Notify => {
            if free.mails == 0 {
                tell_mails(rt, view)?;
            }
            if free.datas == 0 {
                tell_datas(rt, view)?;
            }
            Ok(())
        }
        Kind::Publish if free.datas == 0 => tell_datas(rt, view),
        Kind::Link if free.links == 0 => tell_links(rt, view),
        Kind::Monitor if free.monitors == 0 => tell_monitors(rt, view),
        Kind::After | Kind::Every if free.timers == 0 => tell_timers(rt, view),
        Kind::Subscribe => tell_seats(rt, view, r.number(0) as usize),
        Kind::Bus => none_free(rt, "buses", view.head(BUSES)),
        _ => Ok(()),
    }
}

// The lines of a call that found no room.
pub fn tell_full(rt: &impl Print, view: View<'_>, free: Six, r: Record<'_>) -> io::Result<()> {
    let head = Head::new(r.n, view);
    let caller = Caller::new(view);
    let call = Call(r.kind);
    let refusal = Refusal::NoRoom;
    println!(rt; "{head}{caller} called {call}; answered {refusal}, no room")?;
    tell_what(rt, view, free, r)
}
