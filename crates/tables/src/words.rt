// A column, and a word of it read and written. The last two are total: outside a column a read gives 0 and a write does nothing.
ghost use Rattle.std.specs.Prelude.{◌<◌};
ghost use Rattle.tables.specs.Columns.{REST};
ghost use Rattle.tables.specs.State.{at, poke, Room, Reads, Makes};

use crate::Caps;
use crate::layout::{place_of, word, words_of};

// Column c.
pub fn column<'a>(t: &'a [u64], p: &[u8], k: Caps, c: usize) -> &'a [u64]
    requires { Room k t.now p.now × (c < REST) }
    ensures { Reads k (λ s. s c) t.now p.now result.now }
{
    &t[words_of(k, c)]
}

// Word i of column c.
pub fn get(t: &[u64], p: &[u8], k: Caps, c: usize, i: u64) -> u64
    requires { Room k t.now p.now × (c < REST) }
    ensures { Reads k (λ s. at s c i) t.now p.now result }
{
    word(column(t, p, k, c), i as usize) as u64
}

// Word i of column c is v.
pub fn put(t: &mut [u64], p: &[u8], k: Caps, c: usize, i: u64, v: u64)
    requires { Room k t.old p.now × (c < REST) }
    ensures { Makes k (λ s. poke s c i v) t.old p.now t.new p.now }
{
    let place = place_of(k, c);
    let j = i as usize;
    if j < place.size {
        t[place.from + j] = v;
    }
}
