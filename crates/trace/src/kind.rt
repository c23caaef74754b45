// The kinds of a trace's records: one for a start, and one for each other call.
ghost use Rattle.std.specs.Prelude.{◌≡◌};
ghost use Rattle.trace.specs.Kind.{Decodes, number};

// What a record is of.
#[derive(Clone, Copy, Debug, PartialEq, Eq)]
pub enum Kind {
    Start = 16,
    Spawn = 17,
    Next = 18,
    Yield = 19,
    Notify = 20,
    Receive = 21,
    Show = 22,
    Shown = 23,
    After = 24,
    Every = 25,
    Cancel = 26,
    Link = 27,
    Unlink = 28,
    Monitor = 29,
    Demonitor = 30,
    Exit = 31,
    Advance = 32,
    Report = 33,
    Bus = 34,
    Publish = 35,
    Subscribe = 36,
    Unsubscribe = 37,
    Read = 38,
}

// A number that is no kind's.
#[derive(Clone, Copy, Debug, PartialEq, Eq)]
pub struct UnknownKind(pub u16);

impl TryFrom<u16> for Kind {
    type Error = UnknownKind;

    ghost try_from_gives = { Decodes };

    fn try_from(number: u16) -> Result<Self, UnknownKind> {
        match number {
            16 => Ok(Kind::Start),
            17 => Ok(Kind::Spawn),
            18 => Ok(Kind::Next),
            19 => Ok(Kind::Yield),
            20 => Ok(Kind::Notify),
            21 => Ok(Kind::Receive),
            22 => Ok(Kind::Show),
            23 => Ok(Kind::Shown),
            24 => Ok(Kind::After),
            25 => Ok(Kind::Every),
            26 => Ok(Kind::Cancel),
            27 => Ok(Kind::Link),
            28 => Ok(Kind::Unlink),
            29 => Ok(Kind::Monitor),
            30 => Ok(Kind::Demonitor),
            31 => Ok(Kind::Exit),
            32 => Ok(Kind::Advance),
            33 => Ok(Kind::Report),
            34 => Ok(Kind::Bus),
            35 => Ok(Kind::Publish),
            36 => Ok(Kind::Subscribe),
            37 => Ok(Kind::Unsubscribe),
            38 => Ok(Kind::Read),
            _ => Err(UnknownKind(number)),
        }
    }
}

impl From<Kind> for u16 {
    ghost from_gives = { λ kind n. n ≡ number kind };

    fn from(kind: Kind) -> u16 {
        kind as u16
    }
}
