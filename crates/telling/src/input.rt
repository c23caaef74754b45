// The trace, read a large part at a time.
ghost use Rattle.std.specs.Prelude.{◌≤◌};

use records::bytes::load16;
use std::io::Read;
use std::{fmt, io};

// The longest record: its length has two bytes, and says how many follow.
const LONGEST: usize = 65_537;

// How much is read at a time.
const PART: usize = 262_144;

// The verdict on a trace, as the program replay writes it.
#[derive(Clone, Copy, PartialEq, Eq)]
pub enum Verdict {
    Right,
    Cut,
    Wrong,
}

impl fmt::Display for Verdict {
    fn fmt<W: fmt::Write>(&self, f: &mut fmt::Formatter<W>) -> fmt::Result {
        f.write_str(match *self {
            Verdict::Right => "ok",
            Verdict::Cut => "cut",
            Verdict::Wrong => "bad",
        })
    }
}

// A part of the trace: the bytes from one place to another were read and not used.
#[derive(Drop)]
pub struct Part {
    bytes: [u8; PART],
    from: usize,
    to: usize,
    ended: bool,
    ghost within: { (from ≤ to) × (to ≤ 262144) },
}

impl Part {
    // Before anything is read.
    pub fn new() -> Self {
        Part {
            bytes: [0; PART],
            from: 0,
            to: 0,
            ended: false,
        }
    }

    // What is not used is moved to the front, and the rest filled, as far as the input has any; nothing is done where a whole record is there.
    fn fill(&mut self, input: &mut impl Read) -> io::Result<()> {
        let mut to = self.to - self.from;
        if self.ended | (LONGEST <= to) {
            return Ok(());
        }
        self.bytes.copy_within(self.from..self.to, 0);
        while to < PART {
            let got = input.read(&mut self.bytes[to..])?;
            if got == 0 {
                break;
            }
            to += got;
        }
        self.from = 0;
        self.to = to;
        self.ended = to < PART;
        Ok(())
    }

    // The next record; or, where there is no whole one, the verdict on a trace that was right before.
    pub fn next_record(&mut self, input: &mut impl Read) -> io::Result<Result<&[u8], Verdict>> {
        self.fill(input)?;
        let from = self.from;
        let left = self.to - from;
        if left == 0 {
            return Ok(Err(Verdict::Right));
        }
        if left < 2 {
            return Ok(Err(Verdict::Cut));
        }
        let size = 2 + load16(&self.bytes, from) as usize;
        if left < size {
            return Ok(Err(Verdict::Cut));
        }
        self.from = from + size;
        Ok(Ok(&self.bytes[from..from + size]))
    }
}
