// What is broken of a runtime: one word or byte, or two words.
use crate::places::{byte_at, word_at};

// The name that its line has, and what is broken.
pub type Break = (&'static str, Damage);

// A column, an entry's place in it, and what its word becomes.
pub type Change = (usize, usize, u64);

#[derive(Clone, Copy)]
pub enum Damage {
    // As a change has it.
    Word(usize, usize, u64),

    Two(Change, Change),

    // A data entry, the place of a byte of it, and what that becomes.
    Byte(usize, usize, u8),
}

impl Damage {
    // Breaks it, in a table and a payload area.
    pub fn make(self, t: &mut [u64], p: &mut [u8]) {
        match self {
            Damage::Word(column, entry, to) => set_word(t, (column, entry, to)),
            Damage::Two(one, other) => {
                set_word(t, one);
                set_word(t, other);
            }
            Damage::Byte(entry, at, to) => {
                if let Some(byte) = byte_at(entry, at).and_then(|i| p.get_mut(i)) {
                    *byte = to;
                }
            }
        }
    }
}

// One word becomes another.
pub fn set_word(t: &mut [u64], (column, entry, to): Change) {
    if let Some(word) = word_at(column, entry).and_then(|i| t.get_mut(i)) {
        *word = to;
    }
}
