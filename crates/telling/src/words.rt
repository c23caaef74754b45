// Pieces of the text.
use crate::view::View;
use records::reason::Word;
use std::fmt;
use tables::columns::CLOCK;
use trace::kind::Kind;

// A number and what it counts: the word for one, and that for any other number.
#[derive(Clone, Copy)]
pub struct Counted(pub u64, pub &'static str, pub &'static str);

impl fmt::Display for Counted {
    fn fmt<W: fmt::Write>(&self, f: &mut fmt::Formatter<W>) -> fmt::Result {
        let Counted(n, one, many) = *self;
        if n == 1 {
            write!(f, "{n} {one}")
        } else {
            write!(f, "{n} {many}")
        }
    }
}

// A time in microseconds, told in milliseconds: with three places where it is not a whole number of them.
#[derive(Clone, Copy)]
pub struct Time(pub u64);

impl fmt::Display for Time {
    fn fmt<W: fmt::Write>(&self, f: &mut fmt::Formatter<W>) -> fmt::Result {
        let whole = self.0 / 1000;
        let rest = self.0 % 1000;
        if rest == 0 {
            write!(f, "{whole} ms")
        } else {
            write!(f, "{whole}.{rest:03} ms")
        }
    }
}

// How a line on a record begins: its number, and the time on the clock.
#[derive(Clone, Copy)]
pub struct Head {
    n: u64,
    clock: Time,
}

impl Head {
    // Of record n, made on a runtime.
    pub fn new(n: u64, view: View<'_>) -> Self {
        let clock = Time(view.head(CLOCK));
        Head { n, clock }
    }
}

impl fmt::Display for Head {
    fn fmt<W: fmt::Write>(&self, f: &mut fmt::Formatter<W>) -> fmt::Result {
        let Head { n, clock } = *self;
        write!(f, "record {n}, clock {clock}: ")
    }
}

// Who calls: the track that runs, by its id, or the box itself.
#[derive(Clone, Copy)]
pub struct Caller(Option<u64>);

impl Caller {
    pub fn new(view: View<'_>) -> Self {
        Caller(view.running().map(|slot| view.track_in(slot)))
    }
}

impl fmt::Display for Caller {
    fn fmt<W: fmt::Write>(&self, f: &mut fmt::Formatter<W>) -> fmt::Result {
        match self.0 {
            Some(id) => write!(f, "track {id}"),
            None => f.write_str("the box itself"),
        }
    }
}

// Why a track ended: the reason's word, and the number of one of the application's own.
#[derive(Clone, Copy)]
pub struct Reason(pub u64);

impl fmt::Display for Reason {
    fn fmt<W: fmt::Write>(&self, f: &mut fmt::Formatter<W>) -> fmt::Result {
        let Ok(reason) = u16::try_from(self.0) else {
            return Ok(());
        };
        match Word::from(reason) {
            Word::App => write!(f, "{} {reason}", Word::App.name()),
            word => f.write_str(word.name()),
        }
    }
}

// A call that can be aimed at a track or find no room, by its kind.
#[derive(Clone, Copy)]
pub struct Call(pub Kind);

impl fmt::Display for Call {
    fn fmt<W: fmt::Write>(&self, f: &mut fmt::Formatter<W>) -> fmt::Result {
        f.write_str(match self.0 {
            Kind::Spawn => "spawn",
            Kind::Notify => "notify",
            Kind::After => "after",
            Kind::Every => "every",
            Kind::Link => "link",
            Kind::Unlink => "unlink",
            Kind::Monitor => "monitor",
            Kind::Bus => "bus",
            Kind::Publish => "publish",
            Kind::Subscribe => "subscribe",
            _ => "a call",
        })
    }
}
