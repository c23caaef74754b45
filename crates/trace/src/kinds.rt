// The record of each call with its answer, for C: how many bytes it takes; 0 and nothing changed where the slice is too short.
#![tactic(auto, unfolding(crate::specs::Kinds::encode))]

ghost use Rattle.std.specs.Prelude.{[], ◌∷◌};
ghost use Rattle.ledger.specs.Call.{Answer};
ghost use Rattle.ledger.specs.Call.Answer.{advanced, copied, counts, ended, made, place, plain, received, turn};
ghost use Rattle.ledger.specs.Call.Call.{op, start};
ghost use Rattle.ledger.specs.Call.Op.{advance, after, bus, cancel, demonitor, every, exit, link, monitor, next, notify, publish, read, receive, report, show, shown, spawn, subscribe, unlink, unsubscribe, yield};
ghost use Rattle.trace.specs.Promises.{Put};
ghost use Rattle.trace.specs.Kinds.{encode};

use crate::kind::Kind;
use crate::writer::kept;

// The lengths of both buffers and the six capacities.
pub fn fg_trace_start(
    out: &mut [u8],
    words: u64,
    bytes: u64,
    actors: u64,
    mailboxes: u64,
    data_entries: u64,
    links: u64,
    monitors: u64,
    timers: u64,
    no: u64,
) -> usize
    ensures { Put (encode words bytes (start (record { actors = actors; mails = mailboxes; datas = data_entries; links = links; monitors = monitors; timers = timers })) (plain no)) out.old result out.new }
{
    let front = [
        words,
        bytes,
        actors,
        mailboxes,
        data_entries,
        links,
        monitors,
        timers,
    ];
    Kind::Start.write_numbers(out, &front, &[no])
}

pub fn fg_trace_spawn(out: &mut [u8], priority: u64, no: u64, id: u64) -> usize
    ensures { Put (encode 0 0 (op (spawn priority)) (made no id)) out.old result out.new }
{
    Kind::Spawn.write_numbers(out, &[priority], &[no, id])
}

pub fn fg_trace_next(out: &mut [u8], no: u64, id: u64, reason: u64, sleep: i64) -> usize
    ensures { Put (encode 0 0 (op next) (turn no id reason sleep)) out.old result out.new }
{
    Kind::Next.write_numbers(out, &[], &[no, id, reason, sleep.cast_unsigned()])
}

pub fn fg_trace_yield(out: &mut [u8], no: u64) -> usize
    ensures { Put (encode 0 0 (op yield) (plain no)) out.old result out.new }
{
    Kind::Yield.write_numbers(out, &[], &[no])
}

// A payload over 252 bytes by its length alone.
pub fn fg_trace_notify(out: &mut [u8], target: u64, tag: u64, payload: &[u8], no: u64) -> usize
    ensures { Put (encode 0 0 (op (notify target tag payload.now)) (plain no)) out.old result out.new }
{
    let front = [target, tag, payload.len() as u64];
    Kind::Notify.write(out, &front, kept(payload), &[no])
}

// The filter and the wait; the number, and of the message in hand its sender, class, tag and length.
pub fn fg_trace_receive(
    out: &mut [u8],
    sender: u64,
    class: u64,
    tag: u64,
    wait: i64,
    no: u64,
    from: u64,
    of_class: u64,
    of_tag: u64,
    length: u64,
) -> usize
    ensures { Put (encode 0 0 (op (receive sender class tag wait)) (received no from of_class of_tag length)) out.old result out.new }
{
    let front = [sender, class, tag, wait.cast_unsigned()];
    Kind::Receive.write_numbers(out, &front, &[no, from, of_class, of_tag, length])
}

// The part that was shown, as a payload is.
pub fn fg_trace_show(out: &mut [u8], part: &[u8]) -> usize
    ensures { Put (encode 0 0 (op show) (Answer.part part.now)) out.old result out.new }
{
    let front = [part.len() as u64];
    Kind::Show.write(out, &front, kept(part), &[])
}

pub fn fg_trace_shown(out: &mut [u8], no: u64, offset: u64, length: u64) -> usize
    ensures { Put (encode 0 0 (op shown) (place no offset length)) out.old result out.new }
{
    Kind::Shown.write_numbers(out, &[], &[no, offset, length])
}

pub fn fg_trace_after(out: &mut [u8], delay: u64, no: u64, id: u64) -> usize
    ensures { Put (encode 0 0 (op (after delay)) (made no id)) out.old result out.new }
{
    Kind::After.write_numbers(out, &[delay], &[no, id])
}

pub fn fg_trace_every(out: &mut [u8], interval: u64, no: u64, id: u64) -> usize
    ensures { Put (encode 0 0 (op (every interval)) (made no id)) out.old result out.new }
{
    Kind::Every.write_numbers(out, &[interval], &[no, id])
}

pub fn fg_trace_cancel(out: &mut [u8], id: u64, no: u64) -> usize
    ensures { Put (encode 0 0 (op (cancel id)) (plain no)) out.old result out.new }
{
    Kind::Cancel.write_numbers(out, &[id], &[no])
}

pub fn fg_trace_link(out: &mut [u8], partner: u64, no: u64) -> usize
    ensures { Put (encode 0 0 (op (link partner)) (plain no)) out.old result out.new }
{
    Kind::Link.write_numbers(out, &[partner], &[no])
}

pub fn fg_trace_unlink(out: &mut [u8], partner: u64, no: u64) -> usize
    ensures { Put (encode 0 0 (op (unlink partner)) (plain no)) out.old result out.new }
{
    Kind::Unlink.write_numbers(out, &[partner], &[no])
}

pub fn fg_trace_monitor(out: &mut [u8], target: u64, no: u64, id: u64) -> usize
    ensures { Put (encode 0 0 (op (monitor target)) (made no id)) out.old result out.new }
{
    Kind::Monitor.write_numbers(out, &[target], &[no, id])
}

pub fn fg_trace_demonitor(out: &mut [u8], id: u64, no: u64) -> usize
    ensures { Put (encode 0 0 (op (demonitor id)) (plain no)) out.old result out.new }
{
    Kind::Demonitor.write_numbers(out, &[id], &[no])
}

pub fn fg_trace_exit(out: &mut [u8], reason: u64, no: u64, sent: u64, lost: u64) -> usize
    ensures { Put (encode 0 0 (op (exit reason)) (ended no sent lost)) out.old result out.new }
{
    Kind::Exit.write_numbers(out, &[reason], &[no, sent, lost])
}

pub fn fg_trace_advance(out: &mut [u8], micros: u64, no: u64, fired: u64) -> usize
    ensures { Put (encode 0 0 (op (advance micros)) (advanced no fired)) out.old result out.new }
{
    Kind::Advance.write_numbers(out, &[micros], &[no, fired])
}

// The six free counts.
pub fn fg_trace_report(
    out: &mut [u8],
    no: u64,
    actors: u64,
    mailboxes: u64,
    data_entries: u64,
    links: u64,
    monitors: u64,
    timers: u64,
) -> usize
    ensures { Put (encode 0 0 (op report) (counts no (actors ∷ mailboxes ∷ data_entries ∷ links ∷ monitors ∷ timers ∷ []))) out.old result out.new }
{
    Kind::Report.write_numbers(
        out,
        &[],
        &[no, actors, mailboxes, data_entries, links, monitors, timers],
    )
}

// The four settings; the number, and the bus's own.
pub fn fg_trace_bus(
    out: &mut [u8],
    entries: u64,
    subscribers: u64,
    reads: u64,
    age: u64,
    no: u64,
    id: u64,
) -> usize
    ensures { Put (encode 0 0 (op (bus entries subscribers reads age)) (made no id)) out.old result out.new }
{
    let front = [entries, subscribers, reads, age];
    Kind::Bus.write_numbers(out, &front, &[no, id])
}

// A payload over 252 bytes by its length alone.
pub fn fg_trace_publish(out: &mut [u8], bus: u64, payload: &[u8], no: u64) -> usize
    ensures { Put (encode 0 0 (op (publish bus payload.now)) (plain no)) out.old result out.new }
{
    let front = [bus, payload.len() as u64];
    Kind::Publish.write(out, &front, kept(payload), &[no])
}

pub fn fg_trace_subscribe(out: &mut [u8], bus: u64, no: u64) -> usize
    ensures { Put (encode 0 0 (op (subscribe bus)) (plain no)) out.old result out.new }
{
    Kind::Subscribe.write_numbers(out, &[bus], &[no])
}

pub fn fg_trace_unsubscribe(out: &mut [u8], bus: u64, no: u64) -> usize
    ensures { Put (encode 0 0 (op (unsubscribe bus)) (plain no)) out.old result out.new }
{
    Kind::Unsubscribe.write_numbers(out, &[bus], &[no])
}

// The bus and how many bytes the lent slice has; the number, and the bytes that were copied to it, as a payload is.
pub fn fg_trace_read(out: &mut [u8], bus: u64, room: u64, no: u64, copy: &[u8]) -> usize
    ensures { Put (encode 0 0 (op (read bus room)) (copied no copy.now)) out.old result out.new }
{
    let front = [bus, room, no, copy.len() as u64];
    Kind::Read.write(out, &front, kept(copy), &[])
}
