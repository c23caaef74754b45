// Who and what is still there.
use crate::buses::each_bus;
use crate::named::in_its_name;
use crate::six::Six;
use crate::states::State;
use crate::view::View;
use crate::words::{Counted, Time};
use std::io;
use tables::columns::{CLOCK, PRIORITY};
use tables::limits::MOST_ACTORS;

// A track: its slot, its priority, what it is about, and what is in its name.
fn tell_track(rt: &impl Print, view: View<'_>, slot: usize) -> io::Result<()> {
    let track = view.track_in(slot);
    let priority = view.at(PRIORITY, slot);
    let state = State { view, slot };
    println!(rt; "track {track} (slot {slot}), priority {priority}, {state}; in its name:")?;
    in_its_name(rt, view, slot)
}

// Each track that lives. Is there any?
fn each_track(rt: &impl Print, view: View<'_>) -> io::Result<bool> {
    let mut any = false;
    for slot in 0..MOST_ACTORS {
        if view.lives(slot) {
            tell_track(rt, view, slot)?;
            any = true;
        }
    }
    Ok(any)
}

// Everything that is there after n records, and what is free.
pub fn still_there(rt: &impl Print, view: View<'_>, free: Six, n: u64) -> io::Result<()> {
    let records = Counted(n, "record", "records");
    let clock = Time(view.head(CLOCK));
    println!(rt; "after {records}, clock {clock}, still there:")?;
    if !each_track(rt, view)? {
        println!(rt; "no track")?;
    }
    each_bus(rt, view)?;
    println!(rt; "free: {free}")
}
