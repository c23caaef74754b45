// The rules of the data entries: a free one is all zero, and any other holds a message, or a bus's value.
ghost use Rattle.std.specs.Prelude.{◌≡◌, ◌+◌, ◌*◌, ◌≤◌, ◌<◌, length};
ghost use Rattle.records.specs.Header.{class_of};
ghost use Rattle.rules.specs.Rule.{test, both, each};
ghost use Rattle.rules.specs.Sound.{header_rule, length_rule, sender_rule, data_rule};
ghost use Rattle.rules.specs.Host.{Tests};
ghost use Rattle.sound.specs.Kinds.{written_rule, posted_rule, taken_rule, entry_rule};
ghost use Rattle.tables.specs.Columns.{PAYLOAD};
ghost use Rattle.tables.specs.Limits.{ENTRY-BYTES};
ghost use Rattle.tables.specs.State.{Room, Reads};

use crate::zeros::{joined, rest_zero};
use pools::bits::is_free;
use reading::headers::class_in;
use records::bytes::load32;
use records::exit::EXIT_BYTES;
use records::tick::TICK_BYTES;
use tables::Caps;
use tables::columns::{AGE, DATA_FREE, LENGTH, SENDER, VALUE_BUS};
use tables::layout::{bytes_needed, word};
use tables::limits::{ACTOR_FACTOR, ANY_TAG, ENTRY_BYTES, HEADER_BYTES, PAYLOAD_MOST};
use tables::words::column;

// ---- messages
// A notification has neither class nor mark, a tag below the last, and any length. A tick and an exit notice have the mark, no tag, and the length of their record.
fn header_ok(header: u32, len: u64) -> bool
    ensures { result ≡ test (both (header_rule header) (length_rule (class_of header) len)) }
{
    if (header as u64) < ANY_TAG {
        return len <= (PAYLOAD_MOST as u64);
    }
    ((header == 0x3800_0000) & (len == (TICK_BYTES as u64)))
        | ((header == 0x4800_0000) & (len == (EXIT_BYTES as u64)))
}

// Is the sender an actor that its slot has had, by the slots' ages, or a timer?
fn sender_ok(ages: &[u64], class: u64, sender: u64) -> bool
    ensures { result ≡ test (sender_rule ages.now class sender) }
{
    if sender == 0 {
        return class == 3;
    }
    let age = word(ages, (sender % ACTOR_FACTOR) as usize) as u64;
    (1 <= sender / ACTOR_FACTOR) & (sender / ACTOR_FACTOR <= age)
}

// ---- entries
// A data entry: its place in the payload area, and the words of its columns, of which the first names the bus whose value it holds.
#[derive(Clone, Copy)]
struct Entry<'a> {
    area: &'a [u8],
    d: usize,
    bus: u64,
    sender: u64,
    len: u64,
    ghost room: { ENTRY-BYTES * d + ENTRY-BYTES ≤ length area.now },
}

impl Entry<'_> {
    // Does it hold a message?
    fn message_ok(&self, ages: &[u64]) -> bool
        ensures { result ≡ test (written_rule self.now.area.now ages.now self.now.sender self.now.len self.now.d) }
    {
        if (PAYLOAD_MOST as u64) < self.len {
            return false;
        }
        let header = load32(self.area, ENTRY_BYTES * self.d);
        let end = HEADER_BYTES + (self.len as usize);
        let zero = rest_zero(self.area, ENTRY_BYTES * self.d, end);
        let right = header_ok(header, self.len);
        let from = sender_ok(ages, class_in(header), self.sender);
        right & (from & zero)
    }

    // Does it hold a bus's value? That has neither header nor sender.
    fn posted_ok(&self) -> bool
        ensures { result ≡ test (posted_rule self.now.area.now self.now.sender self.now.len self.now.d) }
    {
        if (PAYLOAD_MOST as u64) < self.len {
            return false;
        }
        let header = load32(self.area, ENTRY_BYTES * self.d);
        let end = HEADER_BYTES + (self.len as usize);
        let zero = rest_zero(self.area, ENTRY_BYTES * self.d, end);
        ((header == 0) & (self.sender == 0)) & zero
    }

    // One that is taken.
    fn taken_ok(&self, ages: &[u64]) -> bool
        ensures { result ≡ test (taken_rule self.now.area.now ages.now self.now.bus self.now.sender self.now.len self.now.d) }
    {
        if self.bus == 0 {
            return self.message_ok(ages);
        }
        self.posted_ok()
    }

    // One that is free or taken, as the column of free bits says.
    fn entry_ok(&self, bits: &[u64], ages: &[u64]) -> bool
        ensures { result ≡ test (entry_rule self.now.area.now bits.now ages.now self.now.bus self.now.sender self.now.len self.now.d) }
    {
        if is_free(bits, self.d) {
            let any = joined(self.area, ENTRY_BYTES * self.d, ENTRY_BYTES / 8);
            return ((self.sender | self.len) | any) == 0;
        }
        self.taken_ok(ages)
    }
}

// The payload area.
fn area_of<'a>(t: &[u64], p: &'a [u8], k: Caps) -> &'a [u8]
    requires { Room k t.now p.now }
    ensures { Reads k (λ s. s PAYLOAD) t.now p.now result.now }
{
    let end = bytes_needed(k);
    &p[0..end]
}

pub fn datas(t: &[u64], p: &[u8], k: Caps) -> bool
    requires { Room k t.now p.now }
    ensures { Tests k (λ s. each k.datas (λ d. data_rule s d)) t.now p.now result }
{
    let area = area_of(t, p, k);
    let bits = column(t, p, k, DATA_FREE);
    let ages = column(t, p, k, AGE);
    let buses = column(t, p, k, VALUE_BUS);
    let senders = column(t, p, k, SENDER);
    let lengths = column(t, p, k, LENGTH);
    let mut ok = true;
    for d in 0..k.datas {
        let entry = Entry {
            area,
            d,
            bus: buses[d],
            sender: senders[d],
            len: lengths[d],
        };
        ok &= entry.entry_ok(bits, ages);
    }
    ok
}
