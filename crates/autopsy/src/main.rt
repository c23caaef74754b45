// Replays a trace from standard input and tells, in plain text, who ended with what still in its name, which calls were aimed at
// a track that had ended, which pools were full, and what is left at the end. The last line is the verdict, as the program replay has it.
#![tactic(auto)]

use std::io;
use std::io::Read;
use telling::aimed::{is_aimed, tell_aimed};
use telling::buffers::Buffers;
use telling::ends::Ends;
use telling::exits::tell_exit;
use telling::full::{needs_room, tell_full};
use telling::input::{Part, Verdict};
use telling::left::still_there;
use telling::record::{Record, Refusal};
use telling::starts::tell_start;
use trace::kind::Kind;

// The runtime as it is now and as it was before the last record, and when its tracks ended.
#[derive(Drop)]
struct Autopsy {
    now: Buffers,
    before: Buffers,
    ends: Ends,
}

impl Autopsy {
    // Before the first record.
    fn new() -> Self {
        Autopsy {
            now: Buffers::new(),
            before: Buffers::new(),
            ends: Ends::new(),
        }
    }

    // What is to be told of a call that was done: an exit or a start.
    fn tell_done(&mut self, rt: &impl Print, r: Record<'_>) -> io::Result<()> {
        let view = self.before.view();
        match r.kind {
            Kind::Exit => {
                let Some(slot) = view.running() else {
                    return Ok(());
                };
                self.ends.remember(view.track_in(slot), r.n);
                tell_exit(rt, view, slot, r)
            }
            Kind::Start => {
                self.ends.forget();
                tell_start(rt, view, r)
            }
            _ => Ok(()),
        }
    }

    // What is to be told of a call that was refused.
    fn tell_refused(&mut self, rt: &impl Print, r: Record<'_>, refusal: Refusal) -> io::Result<()> {
        if is_aimed(r.kind) {
            tell_aimed(rt, self.now.view(), &self.ends, r, refusal)?;
        }
        if needs_room(r.kind) && refusal == Refusal::NoRoom {
            let free = self.now.free();
            tell_full(rt, self.now.view(), free, r)?;
        }
        Ok(())
    }

    // Record n made and told. Is it right? Where it is not, the runtime is as it was before.
    fn turn(&mut self, rt: &impl Print, n: u64, bytes: &[u8]) -> io::Result<bool> {
        self.before.copy_from(&self.now);
        if !self.now.replay(n, bytes) {
            self.now.copy_from(&self.before);
            return Ok(false);
        }
        if let Some(r) = Record::new(n, bytes) {
            match r.answer() {
                Ok(()) => self.tell_done(rt, r)?,
                Err(refusal) => self.tell_refused(rt, r, refusal)?,
            }
        }
        Ok(true)
    }

    // What is left after n right records, and the verdict.
    fn finish(&mut self, rt: &impl Print, verdict: Verdict, n: u64) -> io::Result<()> {
        if n != 0 {
            say_stop(rt, verdict, n)?;
            let free = self.now.free();
            still_there(rt, self.now.view(), free, n)?;
        }
        println!(rt; "{verdict} {n}")
    }

    // One record after the other.
    fn run(&mut self, rt: &impl Print, input: &mut impl Read, part: &mut Part) -> io::Result<()> {
        for n in 0..u64::MAX {
            let bytes = match part.next_record(input)? {
                Ok(bytes) => bytes,
                Err(verdict) => return self.finish(rt, verdict, n),
            };
            if !self.turn(rt, n, bytes)? {
                return self.finish(rt, Verdict::Wrong, n);
            }
        }
        Ok(())
    }
}

// That nothing is told from record n on, where it is cut off or not right.
fn say_stop(rt: &impl Print, verdict: Verdict, n: u64) -> io::Result<()> {
    let what = match verdict {
        Verdict::Right => return Ok(()),
        Verdict::Cut => "cut off",
        Verdict::Wrong => "not right",
    };
    println!(rt; "record {n} is {what}; what is told here was before it")
}

fn main(rt: HostRuntime) -> io::Result<()> {
    let mut autopsy = Autopsy::new();
    let mut part = Part::new();
    autopsy.run(&rt, &mut rt.reader(), &mut part)
}
