// What a track is about: it runs, is ready, or waits.
use crate::messages::Class;
use crate::view::View;
use crate::words::Time;
use rules::states::{MESSAGE, RUNNABLE, RUNS, TIMEOUT};
use std::fmt;
use tables::columns::{DEADLINE, REASON, STATE, WANT_CLASS, WANT_SENDER, WANT_TAG};
use tables::limits::{ANY_SENDER, ANY_TAG};

// The track in a slot of a runtime, and what it is about.
#[derive(Clone, Copy)]
pub struct State<'a> {
    pub view: View<'a>,
    pub slot: usize,
}

impl State<'_> {
    fn at(self, c: usize) -> u64 {
        self.view.at(c, self.slot)
    }

    // Why it is ready.
    fn why(self) -> &'static str {
        match self.at(REASON) {
            MESSAGE => "a message came",
            TIMEOUT => "its wait is over",
            _ => "spawned or yielded",
        }
    }

    // What it waits for: the class, the sender, the tag, the end.
    fn fmt_wait<W: fmt::Write>(self, f: &mut fmt::Formatter<W>) -> fmt::Result {
        match Class::of(self.at(WANT_CLASS)) {
            Some(class) => write!(f, "waiting for {class}")?,
            None => f.write_str("waiting for anything")?,
        }
        let sender = self.at(WANT_SENDER);
        if sender != ANY_SENDER {
            write!(f, " from {sender}")?;
        }
        let tag = self.at(WANT_TAG);
        if tag != ANY_TAG {
            write!(f, " with tag {tag}")?;
        }
        let deadline = Time(self.at(DEADLINE));
        if deadline.0 == 0 {
            f.write_str(", for ever")
        } else {
            write!(f, ", until {deadline}")
        }
    }
}

impl fmt::Display for State<'_> {
    fn fmt<W: fmt::Write>(&self, f: &mut fmt::Formatter<W>) -> fmt::Result {
        match self.at(STATE) {
            RUNNABLE => {
                let why = self.why();
                write!(f, "ready: {why}")
            }
            RUNS => f.write_str("running"),
            _ => self.fmt_wait(f),
        }
    }
}
