// A piece of a trace: every whole record in it judged, one after the other.
ghost use Rattle.std.specs.Prelude.{◌≡◌, ◌+◌, ◌-◌, ◌^◌, ◌<◌, ◌≤◌, drop, length, take};
ghost use Rattle.judge.specs.Feeding.{Bench, Judges};
ghost use Rattle.judge.specs.Replayed.{is_first};

use crate::step::fg_replay;
use records::bytes::load16;

// How far it came with every record right: the number of the next one, and how many bytes were used.
#[derive(Clone, Copy)]
pub struct Fed {
    pub count: u64,
    pub used: usize,
}

// The number of a record that is not right.
#[derive(Clone, Copy)]
pub struct WrongRecord(pub u64);

// Judges the records of a piece that begins with record n. What is not used is the beginning of a record, to be given again with what follows it.
pub fn feed(t: &mut [u64], p: &mut [u8], n: u64, bytes: &[u8]) -> Result<Fed, WrongRecord>
    requires { Bench (is_first n) t.old p.old × (n + length bytes.now < 2 ^ 64) }
    ensures { Judges n t.old p.old bytes.now result t.new p.new }
{
    let mut count = n;
    let mut used = 0;
    while 2 <= bytes.len() - used {
        let end = used + 2 + load16(bytes, used) as usize;
        if bytes.len() < end {
            break;
        }
        if !fg_replay(t, p, count, &bytes[used..end]) {
            return Err(WrongRecord(count));
        }
        count += 1;
        used = end;
    }
    Ok(Fed { count, used })
}

// What lies in a buffer from a place on up to another is moved to its front: how many bytes that are.
pub fn keep(buf: &mut [u8], from: usize, to: usize) -> usize
    requires { (from ≤ to) × (to ≤ length buf.old) }
    ensures count { result ≡ to - from }
    ensures moved { take (to - from) buf.new ≡ drop from (take to buf.old) }
{
    buf.copy_within(from..to, 0);
    to - from
}
