// What is in a track's name, a line each.
use crate::messages::Message;
use crate::view::{View, id_of, stored};
use crate::words::{Counted, Time};
use std::{fmt, io};
use tables::columns::{
    ARRIVAL, ARRIVED, DUE, HAND, INTERVAL, LINK_ONE, LINK_TWO, MAIL_DATA, MAIL_OWNER, MONITOR_AGE,
    READERS, TIMER_AGE, TIMER_OWNER, VALUE_BUS, WATCHED, WATCHER,
};
use tables::limits::{
    MONITOR_FACTOR, MOST_BUSES, MOST_DATAS, MOST_LINKS, MOST_MAILS, MOST_MONITORS, MOST_SEATS,
    MOST_TIMERS, TIMER_FACTOR,
};

// A sort of thing that can be in a track's name, told in a line.
pub trait Held: fmt::Display + Drop {
    // There are no more of the sort.
    const MOST: usize;

    // Is the i-th of the sort in the name of the track in a slot?
    fn is_in(view: View<'_>, slot: usize, i: usize) -> bool;

    // The i-th of the sort, where it is.
    fn of(view: View<'_>, slot: usize, i: usize) -> Option<Self>;
}

// How many things of a sort are in the name of the track in a slot.
pub fn count<H: Held>(view: View<'_>, slot: usize) -> usize {
    (0..H::MOST).filter(|i| H::is_in(view, slot, *i)).count()
}

// Does a column of owners name the track in a slot at place i?
fn owns(view: View<'_>, slot: usize, owners: usize, i: usize) -> bool {
    stored(view.at(owners, i)) == Some(slot)
}

// The mailbox entry that arrived as the i-th.
fn arrival(view: View<'_>, i: usize) -> usize {
    view.at(ARRIVAL, i) as usize
}

// A message that nobody has read, by its place among those that arrived.
#[derive(Clone, Copy)]
pub struct Unread(Message);

impl Held for Unread {
    const MOST: usize = MOST_MAILS;

    fn is_in(view: View<'_>, slot: usize, i: usize) -> bool {
        (i as u64) < view.head(ARRIVED) && owns(view, slot, MAIL_OWNER, arrival(view, i))
    }

    fn of(view: View<'_>, slot: usize, i: usize) -> Option<Self> {
        if !Self::is_in(view, slot, i) {
            return None;
        }
        let e = stored(view.at(MAIL_DATA, arrival(view, i)))?;
        Some(Unread(Message::new(view, e)))
    }
}

impl fmt::Display for Unread {
    fn fmt<W: fmt::Write>(&self, f: &mut fmt::Formatter<W>) -> fmt::Result {
        let message = self.0;
        write!(f, "unread: {message}")
    }
}

// The message in hand.
#[derive(Clone, Copy)]
pub struct InHand(Message);

impl Held for InHand {
    const MOST: usize = 1;

    fn is_in(view: View<'_>, slot: usize, _i: usize) -> bool {
        view.at(HAND, slot) != 0
    }

    fn of(view: View<'_>, slot: usize, _i: usize) -> Option<Self> {
        let e = stored(view.at(HAND, slot))?;
        Some(InHand(Message::new(view, e)))
    }
}

impl fmt::Display for InHand {
    fn fmt<W: fmt::Write>(&self, f: &mut fmt::Formatter<W>) -> fmt::Result {
        let message = self.0;
        write!(f, "in hand: {message}")
    }
}

// A timer: its id, when it is due, how often (0: once).
#[derive(Clone, Copy)]
pub struct Timer {
    id: u64,
    due: Time,
    interval: Time,
}

impl Held for Timer {
    const MOST: usize = MOST_TIMERS;

    fn is_in(view: View<'_>, slot: usize, i: usize) -> bool {
        owns(view, slot, TIMER_OWNER, i)
    }

    fn of(view: View<'_>, slot: usize, i: usize) -> Option<Self> {
        if !Self::is_in(view, slot, i) {
            return None;
        }
        Some(Timer {
            id: id_of(view.at(TIMER_AGE, i), TIMER_FACTOR, i),
            due: Time(view.at(DUE, i)),
            interval: Time(view.at(INTERVAL, i)),
        })
    }
}

impl fmt::Display for Timer {
    fn fmt<W: fmt::Write>(&self, f: &mut fmt::Formatter<W>) -> fmt::Result {
        let Timer { id, due, interval } = *self;
        write!(f, "timer {id}, due at {due}, ")?;
        if interval.0 == 0 {
            f.write_str("once")
        } else {
            write!(f, "every {interval}")
        }
    }
}

// The id of the track at the other end of entry i of two columns, where the track in a slot is at this end.
fn partner(view: View<'_>, slot: usize, i: usize, here: usize, there: usize) -> Option<u64> {
    if !owns(view, slot, here, i) {
        return None;
    }
    view.stored_track(view.at(there, i))
}

// A link, by the partner: the end where the track is not.
#[derive(Clone, Copy)]
pub struct Link {
    partner: u64,
}

impl Held for Link {
    const MOST: usize = MOST_LINKS;

    fn is_in(view: View<'_>, slot: usize, i: usize) -> bool {
        owns(view, slot, LINK_ONE, i) || owns(view, slot, LINK_TWO, i)
    }

    fn of(view: View<'_>, slot: usize, i: usize) -> Option<Self> {
        let two = partner(view, slot, i, LINK_ONE, LINK_TWO);
        let one = partner(view, slot, i, LINK_TWO, LINK_ONE);
        let partner = two.or(one)?;
        Some(Link { partner })
    }
}

impl fmt::Display for Link {
    fn fmt<W: fmt::Write>(&self, f: &mut fmt::Formatter<W>) -> fmt::Result {
        let partner = self.partner;
        write!(f, "link with {partner}")
    }
}

// The id of the monitor in a slot.
pub fn monitor_id(view: View<'_>, i: usize) -> u64 {
    id_of(view.at(MONITOR_AGE, i), MONITOR_FACTOR, i)
}

// A monitor on the track, and by whom.
#[derive(Clone, Copy)]
pub struct MonitorOn {
    id: u64,
    watcher: u64,
}

impl Held for MonitorOn {
    const MOST: usize = MOST_MONITORS;

    fn is_in(view: View<'_>, slot: usize, i: usize) -> bool {
        owns(view, slot, WATCHED, i)
    }

    fn of(view: View<'_>, slot: usize, i: usize) -> Option<Self> {
        let watcher = partner(view, slot, i, WATCHED, WATCHER)?;
        let id = monitor_id(view, i);
        Some(MonitorOn { id, watcher })
    }
}

impl fmt::Display for MonitorOn {
    fn fmt<W: fmt::Write>(&self, f: &mut fmt::Formatter<W>) -> fmt::Result {
        let MonitorOn { id, watcher } = *self;
        write!(f, "monitor {id} on it, by {watcher}")
    }
}

// A monitor by the track, and on whom.
#[derive(Clone, Copy)]
pub struct MonitorBy {
    id: u64,
    watched: u64,
}

impl Held for MonitorBy {
    const MOST: usize = MOST_MONITORS;

    fn is_in(view: View<'_>, slot: usize, i: usize) -> bool {
        owns(view, slot, WATCHER, i)
    }

    fn of(view: View<'_>, slot: usize, i: usize) -> Option<Self> {
        let watched = partner(view, slot, i, WATCHER, WATCHED)?;
        let id = monitor_id(view, i);
        Some(MonitorBy { id, watched })
    }
}

impl fmt::Display for MonitorBy {
    fn fmt<W: fmt::Write>(&self, f: &mut fmt::Formatter<W>) -> fmt::Result {
        let MonitorBy { id, watched } = *self;
        write!(f, "monitor {id} by it, on {watched}")
    }
}

// A subscription to a bus, and how much of what was published there it has not read.
#[derive(Clone, Copy)]
pub struct Subscription {
    bus: usize,
    unread: usize,
}

// The seat of a slot on bus b.
pub fn seat_of(view: View<'_>, b: usize, slot: usize) -> Option<usize> {
    view.seats(b)
        .iter()
        .position(|seat| stored(*seat) == Some(slot))
}

// May the one in a seat still read an entry with this mask?
fn may_read(mask: u64, seat: usize) -> bool {
    seat < MOST_SEATS && mask >> (MOST_SEATS + seat) & 1 == 1
}

// How many entries of bus b the one in a seat may still read.
pub fn unread_on(view: View<'_>, b: usize, seat: usize) -> usize {
    (0..MOST_DATAS)
        .filter(|e| {
            stored(view.at(VALUE_BUS, *e)) == Some(b) && may_read(view.at(READERS, *e), seat)
        })
        .count()
}

impl Held for Subscription {
    const MOST: usize = MOST_BUSES;

    fn is_in(view: View<'_>, slot: usize, b: usize) -> bool {
        seat_of(view, b, slot).is_some()
    }

    fn of(view: View<'_>, slot: usize, b: usize) -> Option<Self> {
        let seat = seat_of(view, b, slot)?;
        Some(Subscription {
            bus: b,
            unread: unread_on(view, b, seat),
        })
    }
}

impl fmt::Display for Subscription {
    fn fmt<W: fmt::Write>(&self, f: &mut fmt::Formatter<W>) -> fmt::Result {
        let bus = self.bus;
        let entries = Counted(self.unread as u64, "entry", "entries");
        write!(f, "subscribed to bus {bus}, {entries} unread")
    }
}

// A line for each thing of a sort in the name of a track. Were there any?
fn each<H: Held>(rt: &impl Print, view: View<'_>, slot: usize) -> io::Result<bool> {
    let mut any = false;
    for i in 0..H::MOST {
        if let Some(held) = H::of(view, slot, i) {
            println!(rt; "  {held}")?;
            any = true;
        }
    }
    Ok(any)
}

// All that is in the name of the track in a slot.
pub fn in_its_name(rt: &impl Print, view: View<'_>, slot: usize) -> io::Result<()> {
    let unread = each::<Unread>(rt, view, slot)?;
    let hand = each::<InHand>(rt, view, slot)?;
    let timers = each::<Timer>(rt, view, slot)?;
    let links = each::<Link>(rt, view, slot)?;
    let watchers = each::<MonitorOn>(rt, view, slot)?;
    let watched = each::<MonitorBy>(rt, view, slot)?;
    let subscribed = each::<Subscription>(rt, view, slot)?;
    if unread | hand | timers | links | watchers | watched | subscribed {
        return Ok(());
    }
    println!(rt; "  nothing")
}
