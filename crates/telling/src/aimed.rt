// A call aimed at a track that had ended: the accident, named.
use crate::ends::{Ends, slot_of};
use crate::record::{Record, Refusal};
use crate::view::View;
use crate::words::{Call, Caller, Head};
use std::{fmt, io};
use trace::kind::Kind;

// Is a call of this kind aimed at a track?
pub fn is_aimed(kind: Kind) -> bool {
    matches!(
        kind,
        Kind::Notify | Kind::Link | Kind::Unlink | Kind::Monitor
    )
}

// Who has a slot now.
#[derive(Clone, Copy)]
struct SlotNow<'a> {
    view: View<'a>,
    slot: usize,
}

impl fmt::Display for SlotNow<'_> {
    fn fmt<W: fmt::Write>(&self, f: &mut fmt::Formatter<W>) -> fmt::Result {
        let slot = self.slot;
        if self.view.lives(slot) {
            let track = self.view.track_in(slot);
            write!(f, "slot {slot} now has track {track}")
        } else {
            write!(f, "slot {slot} is now empty")
        }
    }
}

// The line of a refused call, where it was aimed at a track that had ended.
pub fn tell_aimed(
    rt: &impl Print,
    view: View<'_>,
    ends: &Ends,
    r: Record<'_>,
    refusal: Refusal,
) -> io::Result<()> {
    let id = r.number(0);
    let Some(when) = ends.when(view, id) else {
        return Ok(());
    };
    let head = Head::new(r.n, view);
    let caller = Caller::new(view);
    let call = Call(r.kind);
    let slot_now = SlotNow {
        view,
        slot: slot_of(id),
    };
    println!(rt;
        "{head}{caller} called {call} on {id}, which had ended {when}; {slot_now}; answered {refusal}"
    )
}
