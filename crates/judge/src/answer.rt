// What a call answered, compared with what its record says of it.
ghost use Rattle.std.specs.Prelude.{◌≡◌, ◌≤◌, length};
ghost use Rattle.ledger.specs.Call.{Answer};
ghost use Rattle.ledger.specs.Call.Answer.{plain};
ghost use Rattle.rules.specs.Run.{say_advanced, say_ended, say_made, say_received, say_report, say_shown, say_turn};
ghost use Rattle.trace.specs.Codec.{bytes};
ghost use Rattle.trace.specs.Kind.{number};
ghost use Rattle.trace.specs.Kinds.{note_with};
ghost use Rattle.trace.specs.Verdict.{same};

use rules::{Advanced, Ended, Made, Received, Report, Shown, Turn};
use trace::kind::Kind;

// An answer of numbers, which stand behind all that was passed.
pub trait Recorded {
    ghost answer: { Self → Answer };

    // Is this the record of a call of this kind, with these numbers, this text, and this answer?
    fn is_in(self, r: &[u8], kind: Kind, front: &[u64], text: &[u8]) -> bool
        requires { (length front.now ≤ 16) × (length text.now ≤ 252) }
        ensures { result ≡ same (bytes (note_with (number kind) front.now text.now (answer self))) r.now };
}

impl Recorded for u64 {
    ghost answer = { plain };

    fn is_in(self, r: &[u8], kind: Kind, front: &[u64], text: &[u8]) -> bool {
        kind.matches(r, front, text, &[self])
    }
}

impl Recorded for Made {
    ghost answer = { say_made };

    fn is_in(self, r: &[u8], kind: Kind, front: &[u64], text: &[u8]) -> bool {
        kind.matches(r, front, text, &[self.no, self.id])
    }
}

impl Recorded for Turn {
    ghost answer = { say_turn };

    fn is_in(self, r: &[u8], kind: Kind, front: &[u64], text: &[u8]) -> bool {
        let sleep = self.sleep.cast_unsigned();
        kind.matches(r, front, text, &[self.no, self.id, self.reason, sleep])
    }
}

impl Recorded for Received {
    ghost answer = { say_received };

    fn is_in(self, r: &[u8], kind: Kind, front: &[u64], text: &[u8]) -> bool {
        let back = [self.no, self.sender, self.class, self.tag, self.length];
        kind.matches(r, front, text, &back)
    }
}

impl Recorded for Shown {
    ghost answer = { say_shown };

    fn is_in(self, r: &[u8], kind: Kind, front: &[u64], text: &[u8]) -> bool {
        kind.matches(r, front, text, &[self.no, self.offset, self.length])
    }
}

impl Recorded for Ended {
    ghost answer = { say_ended };

    fn is_in(self, r: &[u8], kind: Kind, front: &[u64], text: &[u8]) -> bool {
        kind.matches(r, front, text, &[self.no, self.sent, self.lost])
    }
}

impl Recorded for Advanced {
    ghost answer = { say_advanced };

    fn is_in(self, r: &[u8], kind: Kind, front: &[u64], text: &[u8]) -> bool {
        kind.matches(r, front, text, &[self.no, self.fired])
    }
}

impl Recorded for Report {
    ghost answer = { say_report };

    fn is_in(self, r: &[u8], kind: Kind, front: &[u64], text: &[u8]) -> bool {
        let [actors, mails, datas, links, monitors, timers] = self.free;
        let back = [self.no, actors, mails, datas, links, monitors, timers];
        kind.matches(r, front, text, &back)
    }
}
