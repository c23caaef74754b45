// A message that lies in a data entry, in words.
use crate::view::View;
use crate::words::{Counted, Reason};
use records::exit::fg_read_exit;
use records::header::{class_of, tag_of};
use records::tick::fg_read_tick;
use std::fmt;
use tables::columns::{LENGTH, SENDER};

// The class of a message: three for what tracks send, two for what the runtime writes.
#[derive(Clone, Copy)]
pub enum Class {
    Message,
    Request,
    Reply,
    Tick,
    Notice,
}

impl Class {
    // The class of a number; none for one that has no class.
    pub fn of(number: u64) -> Option<Self> {
        match number {
            0 => Some(Class::Message),
            1 => Some(Class::Request),
            2 => Some(Class::Reply),
            3 => Some(Class::Tick),
            4 => Some(Class::Notice),
            _ => None,
        }
    }
}

impl fmt::Display for Class {
    fn fmt<W: fmt::Write>(&self, f: &mut fmt::Formatter<W>) -> fmt::Result {
        f.write_str(match *self {
            Class::Message => "a message",
            Class::Request => "a request",
            Class::Reply => "a reply",
            Class::Tick => "a tick",
            Class::Notice => "a notice",
        })
    }
}

// What a track sent; a tick, of which timer; a notice: who ended, why, and by what monitor it was told, or by a link.
#[derive(Clone, Copy)]
pub enum Message {
    Sent {
        tag: u32,
        sender: u64,
        length: u64,
    },
    Tick {
        timer: u64,
    },
    Notice {
        actor: u64,
        reason: u16,
        monitor: Option<u64>,
    },
}

impl Message {
    // The one in data entry e.
    pub fn new(view: View<'_>, e: usize) -> Self {
        let header = view.header(e);
        match Class::of(class_of(header) as u64) {
            Some(Class::Tick) => Message::Tick {
                timer: fg_read_tick(view.payload(e)).id,
            },
            Some(Class::Notice) => Message::notice(view.payload(e)),
            _ => Message::Sent {
                tag: tag_of(header),
                sender: view.at(SENDER, e),
                length: view.at(LENGTH, e),
            },
        }
    }

    // The notice in a payload; monitor 0 stands for a link.
    fn notice(payload: &[u8]) -> Self {
        let notice = fg_read_exit(payload);
        Message::Notice {
            actor: notice.actor,
            reason: notice.reason,
            monitor: Some(notice.monitor).filter(|monitor| *monitor != 0),
        }
    }
}

impl fmt::Display for Message {
    fn fmt<W: fmt::Write>(&self, f: &mut fmt::Formatter<W>) -> fmt::Result {
        match *self {
            Message::Sent {
                tag,
                sender,
                length,
            } => {
                let bytes = Counted(length, "byte", "bytes");
                write!(f, "tag {tag} from {sender}, {bytes}")
            }
            Message::Tick { timer } => write!(f, "tick of timer {timer}"),
            Message::Notice {
                actor,
                reason,
                monitor,
            } => {
                let reason = Reason(reason as u64);
                write!(f, "notice that {actor} ended, {reason}, by ")?;
                match monitor {
                    Some(id) => write!(f, "monitor {id}"),
                    None => f.write_str("link"),
                }
            }
        }
    }
}
