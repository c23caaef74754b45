// Why a call was not done, and what it answers: 0 and what the work made or found, or the number of a refusal and zeros beside it.
ghost use Rattle.std.specs.Prelude.{◌≡◌, ◌+◌, ◌^◌, ◌<◌};
ghost use Rattle.rules.specs.Answers.{advanced_of, code_of, copied_of, done_of, ended_of, made_of, received_of, report_of, shown_of, next_of};

use crate::{Advanced, Copied, Ended, Made, Received, Report, Shown, Turn};
use std::ops::Add;

// Why a call was not done, as include/foamgangway.h has it.
#[derive(Clone, Copy, PartialEq, Eq)]
pub enum Refusal {
    // An argument is malformed.
    Malformed = 1,
    // There is no room.
    NoRoom = 2,
    // No such actor, timer, monitor, link or bus, or not the caller's, or not subscribed.
    Unknown = 3,
    // No actor is running, or, for next, one is.
    NotNow = 4,
    // Nothing was found: no message for one who does not wait, no value that is new.
    Nothing = 5,
    // The caller now waits for a message; or, for next, nobody can run.
    Waiting = 6,
    // The buffers hold no sound runtime.
    Unsound = 7,
}

// Its number.
impl From<Refusal> for u64 {
    ghost from_gives = { λ e n. n ≡ code_of e };

    fn from(e: Refusal) -> u64 {
        e as u64
    }
}

// ---- what stands beside the 0
// Whose turn it is: the actor that now runs and why it was runnable; or nobody's, and how long the host may sleep.
#[derive(Clone, Copy)]
pub enum Next {
    Runs { id: u64, reason: u64 },
    Idle { sleep: i64 },
}

// The message that is now in hand.
#[derive(Clone, Copy)]
pub struct Message {
    pub sender: u64,
    pub class: u64,
    pub tag: u64,
    pub length: u64,
}

// Where a payload lies in the payload area.
#[derive(Clone, Copy)]
pub struct Place {
    pub offset: u64,
    pub length: u64,
}

// How many exit notices were sent and lost.
#[derive(Clone, Copy, Default)]
pub struct Notices {
    pub sent: u64,
    pub lost: u64,
}

// Those of both.
impl Add for Notices {
    type Output = Notices;

    ghost can_add = { λ n m. (n.sent + m.sent < 2 ^ 64) × (n.lost + m.lost < 2 ^ 64) };

    ghost add_gives = { λ n m r. (r.sent ≡ n.sent + m.sent) × (r.lost ≡ n.lost + m.lost) };

    fn add(self, m: Notices) -> Notices {
        Notices {
            sent: self.sent + m.sent,
            lost: self.lost + m.lost,
        }
    }
}

// ---- answers
// The number alone.
pub fn done(r: Result<(), Refusal>) -> u64
    ensures { result ≡ done_of r }
{
    match r {
        Ok(()) => 0,
        Err(e) => e.into(),
    }
}

impl From<Result<u64, Refusal>> for Made {
    ghost from_gives = { λ r a. a ≡ made_of r };

    fn from(r: Result<u64, Refusal>) -> Made {
        match r {
            Ok(id) => Made { no: 0, id },
            Err(e) => Made {
                no: e.into(),
                id: 0,
            },
        }
    }
}

impl From<Result<Next, Refusal>> for Turn {
    ghost from_gives = { λ r a. a ≡ next_of r };

    fn from(r: Result<Next, Refusal>) -> Turn {
        match r {
            Ok(Next::Runs { id, reason }) => Turn {
                no: 0,
                id,
                reason,
                sleep: 0,
            },
            Ok(Next::Idle { sleep }) => Turn {
                no: Refusal::Waiting.into(),
                id: 0,
                reason: 0,
                sleep,
            },
            Err(e) => Turn {
                no: e.into(),
                id: 0,
                reason: 0,
                sleep: 0,
            },
        }
    }
}

impl From<Result<Message, Refusal>> for Received {
    ghost from_gives = { λ r a. a ≡ received_of r };

    fn from(r: Result<Message, Refusal>) -> Received {
        match r {
            Ok(m) => Received {
                no: 0,
                sender: m.sender,
                class: m.class,
                tag: m.tag,
                length: m.length,
            },
            Err(e) => Received {
                no: e.into(),
                sender: 0,
                class: 0,
                tag: 0,
                length: 0,
            },
        }
    }
}

impl From<Result<Place, Refusal>> for Shown {
    ghost from_gives = { λ r a. a ≡ shown_of r };

    fn from(r: Result<Place, Refusal>) -> Shown {
        match r {
            Ok(x) => Shown {
                no: 0,
                offset: x.offset,
                length: x.length,
            },
            Err(e) => Shown {
                no: e.into(),
                offset: 0,
                length: 0,
            },
        }
    }
}

impl From<Result<Notices, Refusal>> for Ended {
    ghost from_gives = { λ r a. a ≡ ended_of r };

    fn from(r: Result<Notices, Refusal>) -> Ended {
        match r {
            Ok(n) => Ended {
                no: 0,
                sent: n.sent,
                lost: n.lost,
            },
            Err(e) => Ended {
                no: e.into(),
                sent: 0,
                lost: 0,
            },
        }
    }
}

impl From<Result<u64, Refusal>> for Advanced {
    ghost from_gives = { λ r a. a ≡ advanced_of r };

    fn from(r: Result<u64, Refusal>) -> Advanced {
        match r {
            Ok(fired) => Advanced { no: 0, fired },
            Err(e) => Advanced {
                no: e.into(),
                fired: 0,
            },
        }
    }
}

impl From<Result<[u64; 6], Refusal>> for Report {
    ghost from_gives = { λ r a. a ≡ report_of r };

    fn from(r: Result<[u64; 6], Refusal>) -> Report {
        match r {
            Ok(free) => Report { no: 0, free },
            Err(e) => Report {
                no: e.into(),
                free: [0; 6],
            },
        }
    }
}

impl From<Result<u64, Refusal>> for Copied {
    ghost from_gives = { λ r a. a ≡ copied_of r };

    fn from(r: Result<u64, Refusal>) -> Copied {
        match r {
            Ok(length) => Copied { no: 0, length },
            Err(e) => Copied {
                no: e.into(),
                length: 0,
            },
        }
    }
}
