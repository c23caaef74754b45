// The record at which each track ended, remembered for the last 256 of each slot.
ghost use Rattle.std.specs.Prelude.{◌≡◌, ◌/◌, ◌%◌};

use crate::view::View;
use std::fmt;
use tables::columns::AGE;
use tables::limits::{ACTOR_FACTOR, MOST_ACTORS};

// How many ends of a slot are remembered.
const KEPT: usize = 256;

// The ends of each slot: its ages take the places in turn.
#[derive(Drop)]
pub struct Ends {
    records: [[u64; KEPT]; MOST_ACTORS],
}

// When a track ended: at a record, or too long ago to say.
#[derive(Clone, Copy)]
pub enum When {
    Record(u64),
    LongAgo,
}

impl fmt::Display for When {
    fn fmt<W: fmt::Write>(&self, f: &mut fmt::Formatter<W>) -> fmt::Result {
        match *self {
            When::Record(n) => write!(f, "at record {n}"),
            When::LongAgo => f.write_str("too long ago to say when"),
        }
    }
}

// The slot that an id is of.
pub fn slot_of(id: u64) -> usize
    ensures { result ≡ id % 256 }
{
    (id % ACTOR_FACTOR) as usize
}

// The place of an id among the ends of its slot.
fn turn_of(id: u64) -> usize
    ensures { result ≡ id / 256 % 256 }
{
    (id / ACTOR_FACTOR) as usize % KEPT
}

// The age of the slot's track that ended last; none where none has ended.
fn last_ended(view: View<'_>, slot: usize) -> u64 {
    let age = view.at(AGE, slot);
    if view.lives(slot) {
        return age.saturating_sub(1);
    }
    age
}

impl Ends {
    // None yet.
    pub fn new() -> Self {
        Ends {
            records: [[0; KEPT]; MOST_ACTORS],
        }
    }

    // A new start: what was before is forgotten.
    pub fn forget(&mut self) {
        self.records = [[0; KEPT]; MOST_ACTORS];
    }

    // The track of an id ended at record n.
    pub fn remember(&mut self, id: u64, n: u64) {
        self.records[slot_of(id)][turn_of(id)] = n;
    }

    // When the track of an id ended, if it has.
    pub fn when(&self, view: View<'_>, id: u64) -> Option<When> {
        let slot = slot_of(id);
        let age = id / ACTOR_FACTOR;
        if age == 0 {
            return None;
        }
        let since = last_ended(view, slot).checked_sub(age)?;
        if since < KEPT as u64 {
            Some(When::Record(self.records[slot][turn_of(id)]))
        } else {
            Some(When::LongAgo)
        }
    }
}
