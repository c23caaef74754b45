// The lines that are printed.
ghost use Rattle.std.specs.Prelude.{◌*◌, ◌^◌, ◌<◌};

use crate::breaks::Break;
use runtime::host::fg_report;
use sound::sound;
use std::{fmt, io};

// What the test of soundness and a host call say of two buffers.
#[derive(Clone, Copy, PartialEq, Eq)]
enum Verdict {
    Refused,
    Accepted,
    Answered,
}

impl fmt::Display for Verdict {
    fn fmt<W: fmt::Write>(&self, f: &mut fmt::Formatter<W>) -> fmt::Result {
        match self {
            Verdict::Refused => write!(f, "refused"),
            Verdict::Accepted => write!(f, "ACCEPTED"),
            Verdict::Answered => write!(f, "ANSWERED"),
        }
    }
}

impl Verdict {
    fn of(t: &mut [u64], p: &mut [u8]) -> Verdict {
        if sound(t, p) {
            return Verdict::Accepted;
        }
        if fg_report(t, p).no != 7 {
            return Verdict::Answered;
        }
        Verdict::Refused
    }
}

// Where the lines go, and how many of them said that buffers are refused.
#[derive(Drop)]
pub struct Report<'a, P: Print> {
    rt: &'a P,
    refused: u64,
}

impl<'a, P: Print> Report<'a, P> {
    pub fn new(rt: &'a P) -> Report<'a, P> {
        Report { rt, refused: 0 }
    }

    // A line that says whether the buffers are sound.
    pub fn state(&self, name: &str, t: &[u64], p: &[u8]) -> io::Result<()> {
        let state = if sound(t, p) { "sound" } else { "UNSOUND" };
        println!(self.rt; "{name} {state}")
    }

    // A line that says whether the test and a host call refuse the buffers.
    pub fn tell(&mut self, name: &str, t: &mut [u64], p: &mut [u8]) -> io::Result<()> {
        let verdict = Verdict::of(t, p);
        if verdict == Verdict::Refused {
            self.refused = self.refused.saturating_add(1);
        }
        println!(self.rt; "{name} {verdict}")
    }

    // Such a line for each break, of a runtime that `start` makes in W words and B bytes.
    pub fn broken<const W: usize, const B: usize, F: Fn(&mut [u64], &mut [u8])>(
        &mut self,
        start: F,
        breaks: &[Break],
    ) -> io::Result<()>
        requires words { 8 * W < 2 ^ 63 }
        requires bytes { B < 2 ^ 63 }
        requires callable { F.IsAlwaysCallable start }
    {
        for &(name, damage) in breaks {
            let mut t = [0u64; W];
            let mut p = [0u8; B];
            start(&mut t, &mut p);
            damage.make(&mut t, &mut p);
            self.tell(name, &mut t, &mut p)?;
        }
        Ok(())
    }

    // How many were refused.
    pub fn total(&self) -> io::Result<()> {
        println!(self.rt; "{} refused", self.refused)
    }
}
