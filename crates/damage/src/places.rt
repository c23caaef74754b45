// Where words and bytes of the small runtime lie, as the library's own layout has it.
use tables::Caps;
use tables::columns::REST;
use tables::layout::{place_of, words_needed};
use tables::limits::ENTRY_BYTES;

// The capacities of the small runtime.
pub const SMALL: Caps = Caps {
    actors: 5,
    mails: 5,
    datas: 8,
    links: 3,
    monitors: 2,
    timers: 2,
};

// Those of the smallest one.
pub const SMALLEST: Caps = Caps {
    actors: 1,
    mails: 1,
    datas: 1,
    links: 0,
    monitors: 0,
    timers: 0,
};

// Word i of column c, where the small runtime has it.
pub fn word_at(c: usize, i: usize) -> Option<usize> {
    if c >= REST {
        return None;
    }
    let place = place_of(SMALL, c);
    if i >= place.size {
        return None;
    }
    place.from.checked_add(i)
}

// Byte j of data entry e.
pub fn byte_at(e: usize, j: usize) -> Option<usize> {
    ENTRY_BYTES.checked_mul(e)?.checked_add(j)
}

// The words of the smallest runtime.
pub fn least() -> usize {
    words_needed(SMALLEST)
}
