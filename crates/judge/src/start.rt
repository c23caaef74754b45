// A start made as its record asks: it is done where the lengths that the record carries are enough.
ghost use Rattle.std.specs.Prelude.{◌≡◌, ◌≤◌, length};
ghost use Rattle.judge.specs.Replayed.{Began, Begun, asks_for, sizes_of};
ghost use Rattle.records.specs.Bytes.{field};
ghost use Rattle.rules.specs.Story.{caps_from};
ghost use Rattle.trace.specs.Verdict.{can_begin};

use crate::answer::Recorded;
use records::bytes::load64;
use runtime::start::fg_start;
use sound::ranged;
use tables::Caps;
use tables::layout::{bytes_needed, words_needed};
use trace::kind::Kind;

// What the record of a start asks for: the lengths of its buffers, and the capacities.
#[derive(Clone, Copy)]
pub struct Wanted {
    pub words: u64,
    pub bytes: u64,
    pub actors: u64,
    pub mails: u64,
    pub datas: u64,
    pub links: u64,
    pub monitors: u64,
    pub timers: u64,
}

// As capacities.
impl From<Wanted> for Caps {
    ghost from_gives = { λ s k. k ≡ caps_from (sizes_of s) };

    fn from(s: Wanted) -> Caps {
        Caps {
            actors: s.actors as usize,
            mails: s.mails as usize,
            datas: s.datas as usize,
            links: s.links as usize,
            monitors: s.monitors as usize,
            timers: s.timers as usize,
        }
    }
}

fn read_start(r: &[u8]) -> Wanted
    requires { 68 ≤ length r.now }
    ensures { result ≡ asks_for r.now }
{
    Wanted {
        words: load64(r, 4),
        bytes: load64(r, 12),
        actors: load64(r, 20),
        mails: load64(r, 28),
        datas: load64(r, 36),
        links: load64(r, 44),
        monitors: load64(r, 52),
        timers: load64(r, 60),
    }
}

// Can it be done on buffers of these lengths?
fn can_begin(words: u64, bytes: u64, k: Caps) -> bool
    ensures { result ≡ can_begin k words bytes }
{
    if ranged(k) {
        return (words_needed(k) as u64 <= words) & (bytes_needed(k) as u64 <= bytes);
    }
    false
}

// It is done on the buffers here, which may be longer or shorter than those were.
fn begin(t: &mut [u64], p: &mut [u8], s: Wanted) -> u64
    ensures { Began s.words s.bytes (sizes_of s) t.old p.old result t.new p.new }
{
    if can_begin(s.words, s.bytes, Caps::from(s)) {
        return fg_start(
            t, p, s.actors, s.mails, s.datas, s.links, s.monitors, s.timers,
        );
    }
    1
}

// The record of a start, judged; the first of a trace must be one that was done.
pub fn judge_start(t: &mut [u64], p: &mut [u8], r: &[u8], first: bool) -> bool
    requires { 68 ≤ length r.now }
    ensures { Begun (field 8 4 r.now) (field 8 12 r.now) (sizes_of (asks_for r.now)) first t.old p.old r.now result t.new p.new }
{
    let s = read_start(r);
    let front = [
        s.words, s.bytes, s.actors, s.mails, s.datas, s.links, s.monitors, s.timers,
    ];
    let v = begin(t, p, s);
    if first && v != 0 {
        return false;
    }
    v.is_in(r, Kind::Start, &front, b"")
}
