// An exit: who ended, why, and what was still in its name.
use crate::named::in_its_name;
use crate::record::Record;
use crate::view::View;
use crate::words::{Head, Reason};
use std::io;

// The track in a slot of the runtime as it was before, ended by a record.
pub fn tell_exit(rt: &impl Print, view: View<'_>, slot: usize, r: Record<'_>) -> io::Result<()> {
    let head = Head::new(r.n, view);
    let track = view.track_in(slot);
    let reason = Reason(r.number(0));
    let sent = r.number(2);
    let lost = r.number(3);
    println!(rt;
        "{head}track {track} (slot {slot}) ended, {reason}; notices: {sent} sent, {lost} lost; still in its name:"
    )?;
    in_its_name(rt, view, slot)
}
