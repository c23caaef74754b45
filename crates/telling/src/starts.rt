// A start: what there is from now on, and that what was before is gone.
use crate::record::Record;
use crate::six::Six;
use crate::view::View;
use crate::words::Counted;
use rules::states::FREE;
use std::io;
use tables::columns::STATE;

// The capacities that the record of a start asks for.
fn capacities(r: Record<'_>) -> Six {
    Six {
        tracks: r.number(2),
        mails: r.number(3),
        datas: r.number(4),
        links: r.number(5),
        monitors: r.number(6),
        timers: r.number(7),
    }
}

// How many tracks live.
fn living(view: View<'_>) -> usize {
    view.column(STATE)
        .iter()
        .filter(|state| **state != FREE)
        .count()
}

// The line of a start. One that is not the first drops the tracks of the runtime as it was before.
pub fn tell_start(rt: &impl Print, before: View<'_>, r: Record<'_>) -> io::Result<()> {
    let n = r.n;
    let room = capacities(r);
    if n == 0 {
        return println!(rt; "record {n}: start; room for {room}");
    }
    let tracks = Counted(living(before) as u64, "track", "tracks");
    println!(rt; "record {n}: new start, {tracks} dropped; room for {room}")
}
