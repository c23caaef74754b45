// The record of a call: its kind, its numbers, and what was answered.
use records::bytes::{load16, load64};
use std::fmt;
use trace::kind::Kind;

// The length and the kind come first; then numbers of eight bytes.
const FRAME: usize = 4;

// Record n of a trace.
#[derive(Clone, Copy)]
pub struct Record<'a> {
    pub n: u64,
    pub kind: Kind,
    bytes: &'a [u8],
}

// Why a call was refused: the answers that have a meaning here, and any other.
#[derive(Clone, Copy, PartialEq, Eq)]
pub enum Refusal {
    Malformed,
    NoRoom,
    NoTrack,
    NoneRuns,
    Other(u64),
}

impl fmt::Display for Refusal {
    fn fmt<W: fmt::Write>(&self, f: &mut fmt::Formatter<W>) -> fmt::Result {
        match *self {
            Refusal::Malformed => f.write_str("1, malformed"),
            Refusal::NoRoom => f.write_str("2"),
            Refusal::NoTrack => f.write_str("3, no such track"),
            Refusal::NoneRuns => f.write_str("4, no track is running"),
            Refusal::Other(no) => write!(f, "{no}"),
        }
    }
}

impl<'a> Record<'a> {
    // Of these bytes; none where they have no kind.
    pub fn new(n: u64, bytes: &'a [u8]) -> Option<Self> {
        if bytes.len() < FRAME {
            return None;
        }
        let kind = Kind::try_from(load16(bytes, 2)).ok()?;
        Some(Record { n, kind, bytes })
    }

    // The number that begins at a byte; 0 where there is none.
    fn number_from(self, byte: usize) -> u64 {
        match self.bytes.get(byte..) {
            Some(rest) if 8 <= rest.len() => load64(rest, 0),
            _ => 0,
        }
    }

    // Number i, of those before any text.
    pub fn number(self, i: u8) -> u64 {
        self.number_from(FRAME + 8 * usize::from(i))
    }

    // The number of the answer: the last, after a start's eight numbers and after the text of a notify or a publish; else it is after the four
    // numbers of a bus, the two of a read, or the one of the others that are looked at.
    fn answered(self) -> u64 {
        match self.kind {
            Kind::Start | Kind::Notify | Kind::Publish => {
                self.number_from(self.bytes.len().saturating_sub(8))
            }
            Kind::Bus => self.number(4),
            Kind::Read => self.number(2),
            _ => self.number(1),
        }
    }

    // Was the call done, and why not?
    pub fn answer(self) -> Result<(), Refusal> {
        match self.answered() {
            0 => Ok(()),
            1 => Err(Refusal::Malformed),
            2 => Err(Refusal::NoRoom),
            3 => Err(Refusal::NoTrack),
            4 => Err(Refusal::NoneRuns),
            no => Err(Refusal::Other(no)),
        }
    }
}
