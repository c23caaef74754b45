// The bits of a pool past its entries, a word at a time.
ghost use Rattle.std.specs.Prelude.{◌<◌, ◌*◌};
ghost use Rattle.rules.specs.Rule.{each};
ghost use Rattle.rules.specs.Sound.{bits_rule};
ghost use Rattle.rules.specs.Host.{Tests};
ghost use Rattle.sound.specs.Kinds.{word_rule};
ghost use Rattle.tables.specs.Columns.{REST};
ghost use Rattle.tables.specs.Sizes.{BIT-WORDS, COLUMN-BITS};
ghost use Rattle.tables.specs.State.{Room};

use pools::bits::WORD_BITS;
use tables::Caps;
use tables::sizes::BIT_WORDS;
use tables::words::get;

// Word j: all of its bits are entries', or those past the last are 0.
fn word_ok(t: &[u64], p: &[u8], k: Caps, c: usize, n: usize, j: u64) -> bool
    requires { Room k t.now p.now × (c < REST) × (j < BIT-WORDS) }
    ensures { Tests k (λ s. word_rule n (s c) j) t.now p.now result }
{
    let word = get(t, p, k, c, j);
    let from = WORD_BITS * (j as usize);
    if n <= from {
        return word == 0;
    }
    let few = n - from;
    if few < WORD_BITS {
        return (word >> few) == 0;
    }
    true
}

// The bits in column c, which has n entries.
pub fn words_ok(t: &[u64], p: &[u8], k: Caps, c: usize, n: usize) -> bool
    requires { Room k t.now p.now × (c < REST) }
    ensures { Tests k (λ s. each COLUMN-BITS (λ e. bits_rule n (s c) e)) t.now p.now result }
{
    (0..BIT_WORDS as u64).all(|j| word_ok(t, p, k, c, n, j))
}
