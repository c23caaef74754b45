// Each call with several numbers, or with a payload, made as a record asks, and the record compared with the one that the writer writes of it.
ghost use Rattle.std.specs.Prelude.{false, ◌≡◌, ◌+◌, ◌<◌, ◌≤◌, drop, length, take};
ghost use Rattle.ledger.specs.Call.Op.{show};
ghost use Rattle.trace.specs.Kinds.{asked};
ghost use Rattle.judge.specs.Replayed.{Judged, OfKind, Replayed};

use crate::answer::Recorded;
use records::bytes::load64;
use runtime::host::{fg_bus, fg_notify, fg_publish, fg_receive};
use runtime::show::show;
use tables::limits::PAYLOAD_MOST;
use trace::kind::Kind;
use trace::writer::kept;

// ---- calls with a payload
// A payload of n bytes that stands in a record from a place on; where it was recorded by its length alone, any other that is too long stands for it.
fn payload(r: &[u8], at: usize, n: u64) -> &[u8]
    requires { n ≤ 252 → at + n ≤ length r.now }
    ensures whole { n ≤ 252 → result.now ≡ take n (drop at r.now) }
    ensures long { 252 < n → 252 < length result.now }
{
    if n <= PAYLOAD_MOST as u64 {
        &r[at..at + n as usize]
    } else {
        &[0; PAYLOAD_MOST + 1]
    }
}

// A message.
pub(crate) fn notify(t: &mut [u64], p: &mut [u8], r: &[u8]) -> bool
    requires { OfKind 20 r.now }
    ensures { Replayed (asked r.now) false t.old p.old r.now result t.new p.new }
{
    let to = load64(r, 4);
    let tag = load64(r, 12);
    let n = load64(r, 20);
    let m = payload(r, 28, n);
    fg_notify(t, p, to, tag, m).is_in(r, Kind::Notify, &[to, tag, n], kept(m))
}

// What is published.
pub(crate) fn publish(t: &mut [u64], p: &mut [u8], r: &[u8]) -> bool
    requires { OfKind 35 r.now }
    ensures { Replayed (asked r.now) false t.old p.old r.now result t.new p.new }
{
    let bus = load64(r, 4);
    let n = load64(r, 12);
    let m = payload(r, 20, n);
    fg_publish(t, p, bus, m).is_in(r, Kind::Publish, &[bus, n], kept(m))
}

// ---- calls with four numbers
pub(crate) fn receive(t: &mut [u64], p: &mut [u8], r: &[u8]) -> bool
    requires { OfKind 21 r.now }
    ensures { Replayed (asked r.now) false t.old p.old r.now result t.new p.new }
{
    let sender = load64(r, 4);
    let class = load64(r, 12);
    let tag = load64(r, 20);
    let wait = load64(r, 28);
    let v = fg_receive(t, p, sender, class, tag, wait.cast_signed());
    v.is_in(r, Kind::Receive, &[sender, class, tag, wait], b"")
}

// A new bus.
pub(crate) fn bus(t: &mut [u64], p: &mut [u8], r: &[u8]) -> bool
    requires { OfKind 34 r.now }
    ensures { Replayed (asked r.now) false t.old p.old r.now result t.new p.new }
{
    let entries = load64(r, 4);
    let subscribers = load64(r, 12);
    let reads = load64(r, 20);
    let age = load64(r, 28);
    let v = fg_bus(t, p, entries, subscribers, reads, age);
    v.is_in(r, Kind::Bus, &[entries, subscribers, reads, age], b"")
}

// ---- a call that answers bytes
// The part that is shown: whole, or its length alone.
pub fn judge_show(t: &[u64], p: &[u8], r: &[u8]) -> bool
    ensures { Judged show t.now p.now r.now result t.now p.now }
{
    let m = show(t, p);
    Kind::Show.matches(r, &[m.len() as u64], kept(m), &[])
}
