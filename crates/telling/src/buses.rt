// Buses: what stands on them, who is subscribed, and which of them hold data entries.
use crate::view::{View, stored};
use crate::words::Counted;
use std::io;
use tables::columns::{BUS_SEATS, BUS_SIZE, VALUE_BUS};
use tables::limits::MOST_BUSES;

// How many data entries bus b has.
pub fn entries_on(view: View<'_>, b: usize) -> usize {
    view.column(VALUE_BUS)
        .iter()
        .filter(|bus| stored(**bus) == Some(b))
        .count()
}

// How many subscribers bus b has.
pub fn subscribers_of(view: View<'_>, b: usize) -> usize {
    view.seats(b).iter().filter(|seat| **seat != 0).count()
}

// A line for each bus that has entries or subscribers: how many of the most that there can be.
pub fn each_bus(rt: &impl Print, view: View<'_>) -> io::Result<()> {
    for b in 0..MOST_BUSES {
        let entries = entries_on(view, b);
        let subscribers = subscribers_of(view, b);
        if (entries != 0) | (subscribers != 0) {
            let size = view.at(BUS_SIZE, b);
            let seats = view.at(BUS_SEATS, b);
            println!(rt;
                "bus {b}: {entries} of {size} entries, {subscribers} of {seats} subscribers"
            )?;
        }
    }
    Ok(())
}

// What each bus holds of the data entries.
pub fn bus_holders(rt: &impl Print, view: View<'_>) -> io::Result<()> {
    for b in 0..MOST_BUSES {
        let n = entries_on(view, b);
        if n != 0 {
            let entries = Counted(n as u64, "entry", "entries");
            println!(rt; "    bus {b} has {entries}")?;
        }
    }
    Ok(())
}

// A bus whose seats are all taken, and by whom.
pub fn tell_seats(rt: &impl Print, view: View<'_>, b: usize) -> io::Result<()> {
    let seats = view.at(BUS_SEATS, b);
    println!(rt; "  seats of bus {b}: none of {seats} is free")?;
    for seat in view.seats(b) {
        if let Some(track) = view.stored_track(*seat) {
            println!(rt; "    track {track}")?;
        }
    }
    Ok(())
}
