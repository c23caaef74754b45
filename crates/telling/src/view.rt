// A runtime that is looked at: its words and bytes, found as the library's own layout has them. What is not there reads as 0.
use records::bytes::load32;
use rules::states::FREE;
use sound::ranged;
use tables::columns::{AGE, LENGTH, REST, RUNNING, SEAT, STATE};
use tables::layout::{Place, bytes_needed, caps_of, place_of, words_needed};
use tables::limits::{ACTOR_FACTOR, ENTRY_BYTES, HEADER_BYTES, MOST_SEATS};

// Its table and its payload area.
#[derive(Clone, Copy)]
pub struct View<'a> {
    pub t: &'a [u64],
    pub p: &'a [u8],
}

// The slot or the entry that a word has, which stores it one up; none for 0.
pub fn stored(word: u64) -> Option<usize> {
    (word as usize).checked_sub(1)
}

// Part i of a row, of parts of n each; empty where it is not there whole.
fn part<T>(row: &[T], n: usize, i: usize) -> &[T] {
    let from = i.saturating_mul(n);
    row.get(from..from.saturating_add(n)).unwrap_or(&[])
}

// The id of what has a slot, or had it last, at an age.
pub fn id_of(age: u64, factor: u64, slot: usize) -> u64 {
    age.saturating_mul(factor).saturating_add(slot as u64)
}

impl<'a> View<'a> {
    // How many words of the table the runtime takes, and how many bytes of the area; none before the first start.
    pub fn taken(self) -> (usize, usize) {
        let k = caps_of(self.t);
        if ranged(k) {
            (words_needed(k), bytes_needed(k))
        } else {
            (0, 0)
        }
    }

    // The words of column c; none before the first start.
    pub fn column(self, c: usize) -> &'a [u64] {
        let k = caps_of(self.t);
        if c < REST && ranged(k) {
            let Place { from, size } = place_of(k, c);
            return self.t.get(from..from.saturating_add(size)).unwrap_or(&[]);
        }
        &[]
    }

    // Word i of column c.
    pub fn at(self, c: usize, i: usize) -> u64 {
        self.column(c).get(i).copied().unwrap_or(0)
    }

    // The one word of a column of the head.
    pub fn head(self, c: usize) -> u64 {
        self.at(c, 0)
    }

    pub fn lives(self, slot: usize) -> bool {
        self.at(STATE, slot) != FREE
    }

    // The id of the track that has a slot, or had it last.
    pub fn track_in(self, slot: usize) -> u64 {
        id_of(self.at(AGE, slot), ACTOR_FACTOR, slot)
    }

    // The id of the track whose slot a word stores; none for 0.
    pub fn stored_track(self, word: u64) -> Option<u64> {
        stored(word).map(|slot| self.track_in(slot))
    }

    // The slot of the track that runs.
    pub fn running(self) -> Option<usize> {
        stored(self.head(RUNNING))
    }

    // The seats of bus b: in each the slot that has it.
    pub fn seats(self, b: usize) -> &'a [u64] {
        part(self.column(SEAT), MOST_SEATS, b)
    }

    // The bytes of data entry e: its header and its payload.
    fn entry(self, e: usize) -> &'a [u8] {
        part(self.p, ENTRY_BYTES, e)
    }

    // The header of data entry e.
    pub fn header(self, e: usize) -> u32 {
        let bytes = self.entry(e);
        if bytes.len() < HEADER_BYTES {
            return 0;
        }
        load32(bytes, 0)
    }

    // The payload of data entry e.
    pub fn payload(self, e: usize) -> &'a [u8] {
        let length = self.at(LENGTH, e) as usize;
        self.entry(e)
            .get(HEADER_BYTES..HEADER_BYTES.saturating_add(length))
            .unwrap_or(&[])
    }
}
