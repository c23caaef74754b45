// The two buffers of a runtime.
use crate::six::Six;
use crate::view::View;
use judge::step::fg_replay;
use runtime::host::fg_report;
use tables::limits::{ENTRY_BYTES, MOST_DATAS, WORDS_MOST};

// The most bytes that a payload area needs.
const BYTES_MOST: usize = MOST_DATAS * ENTRY_BYTES;

// The table and the payload area.
#[derive(Drop)]
pub struct Buffers {
    t: [u64; WORDS_MOST],
    p: [u8; BYTES_MOST],
}

impl Buffers {
    // Before any call.
    pub fn new() -> Self {
        Buffers {
            t: [0; WORDS_MOST],
            p: [0; BYTES_MOST],
        }
    }

    pub fn view(&self) -> View<'_> {
        View {
            t: &self.t,
            p: &self.p,
        }
    }

    // Makes the call of record n. Is the record right?
    pub fn replay(&mut self, n: u64, record: &[u8]) -> bool {
        fg_replay(&mut self.t, &mut self.p, n, record)
    }

    // What is free.
    pub fn free(&mut self) -> Six {
        Six::from(fg_report(&mut self.t, &mut self.p).free)
    }

    // The runtime in other buffers, copied into these.
    pub fn copy_from(&mut self, other: &Buffers) {
        let (words, bytes) = other.view().taken();
        let words = words.min(WORDS_MOST);
        let bytes = bytes.min(BYTES_MOST);
        self.t[..words].copy_from_slice(&other.t[..words]);
        self.p[..bytes].copy_from_slice(&other.p[..bytes]);
    }
}
