// One record of a trace: the call that it asks for is made, and the record compared with the one that the writer writes of it.
ghost use Rattle.std.specs.Prelude.{false};
ghost use Rattle.trace.specs.Kind.{number};
ghost use Rattle.trace.specs.Kinds.{asked};
ghost use Rattle.judge.specs.Replayed.{OfKind, Replayed, is_first};

use crate::answer::Recorded;
use crate::buses::judge_read;
use crate::each;
use crate::forms::Form;
use crate::start::judge_start;
use records::bytes::{load16, load64};
use runtime::host::{
    fg_advance, fg_after, fg_cancel, fg_demonitor, fg_every, fg_exit, fg_link, fg_monitor, fg_next,
    fg_report, fg_shown, fg_spawn, fg_subscribe, fg_unlink, fg_unsubscribe, fg_yield,
};
use trace::kind::Kind;

// A record behind the first, by its kind. The number that is read first is the one that was passed, or the first of the answer where none was.
fn later(t: &mut [u64], p: &mut [u8], r: &[u8], kind: Kind) -> bool
    requires { OfKind (number kind) r.now }
    ensures { Replayed (asked r.now) false t.old p.old r.now result t.new p.new }
{
    let a = load64(r, 4);
    match kind {
        Kind::Start => judge_start(t, p, r, false),
        Kind::Spawn => fg_spawn(t, p, a).is_in(r, kind, &[a], b""),
        Kind::Next => fg_next(t, p).is_in(r, kind, &[], b""),
        Kind::Yield => fg_yield(t, p).is_in(r, kind, &[], b""),
        Kind::Notify => each::notify(t, p, r),
        Kind::Receive => each::receive(t, p, r),
        Kind::Show => each::judge_show(t, p, r),
        Kind::Shown => fg_shown(t, p).is_in(r, kind, &[], b""),
        Kind::After => fg_after(t, p, a).is_in(r, kind, &[a], b""),
        Kind::Every => fg_every(t, p, a).is_in(r, kind, &[a], b""),
        Kind::Cancel => fg_cancel(t, p, a).is_in(r, kind, &[a], b""),
        Kind::Link => fg_link(t, p, a).is_in(r, kind, &[a], b""),
        Kind::Unlink => fg_unlink(t, p, a).is_in(r, kind, &[a], b""),
        Kind::Monitor => fg_monitor(t, p, a).is_in(r, kind, &[a], b""),
        Kind::Demonitor => fg_demonitor(t, p, a).is_in(r, kind, &[a], b""),
        Kind::Exit => fg_exit(t, p, a).is_in(r, kind, &[a], b""),
        Kind::Advance => fg_advance(t, p, a).is_in(r, kind, &[a], b""),
        Kind::Report => fg_report(t, p).is_in(r, kind, &[], b""),
        Kind::Bus => each::bus(t, p, r),
        Kind::Publish => each::publish(t, p, r),
        Kind::Subscribe => fg_subscribe(t, p, a).is_in(r, kind, &[a], b""),
        Kind::Unsubscribe => fg_unsubscribe(t, p, a).is_in(r, kind, &[a], b""),
        Kind::Read => judge_read(t, p, r, a, load64(r, 12)),
    }
}

// A record that has its kind's length: the first of a trace must be a start that is done.
fn whole(t: &mut [u64], p: &mut [u8], n: u64, r: &[u8], kind: Kind) -> bool
    requires { OfKind (number kind) r.now }
    ensures { Replayed (asked r.now) (is_first n) t.old p.old r.now result t.new p.new }
{
    if n != 0 {
        return later(t, p, r, kind);
    }
    match kind {
        Kind::Start => judge_start(t, p, r, true),
        _ => false,
    }
}

// Record n of a trace, the first of which is 0: is it right? Its call is made on the two buffers, unless it is not a record, or it is the first and no start.
pub fn fg_replay(t: &mut [u64], p: &mut [u8], n: u64, r: &[u8]) -> bool
    ensures { Replayed (asked r.now) (is_first n) t.old p.old r.now result t.new p.new }
{
    if r.len() < 4 {
        return false;
    }
    match Kind::try_from(load16(r, 2)) {
        Ok(kind) => Form::of(kind).fits(r) && whole(t, p, n, r, kind),
        Err(_) => false,
    }
}
