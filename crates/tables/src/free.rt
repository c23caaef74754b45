// The free bits and the slots of the tables: the columns lent to the crate of pools.
ghost use Rattle.std.specs.Prelude.{◌<◌};
ghost use Rattle.pools.specs.Pool.{lowest, count};
ghost use Rattle.pools.specs.Bits.{free};
ghost use Rattle.pools.specs.Slot.{unused, usable, is_live};
ghost use Rattle.tables.specs.Columns.{REST};
ghost use Rattle.tables.specs.State.{size, Room, Reads, Makes};
ghost use Rattle.tables.specs.Action.{take_bit, free_bit};

use crate::Caps;
use crate::layout::words_of;
use crate::words::column;
use pools::{bits, slots};

// The lowest of the n entries that the bits of column c say are free; n where none is.
pub fn lowest_bit(t: &[u64], p: &[u8], k: Caps, c: usize, n: usize) -> u64
    requires { Room k t.now p.now × (c < REST) }
    ensures { Reads k (λ s. lowest (free (s c)) n) t.now p.now result }
{
    bits::lowest_free(column(t, p, k, c), n) as u64
}

// How many of them are free.
pub fn count_bits(t: &[u64], p: &[u8], k: Caps, c: usize, n: usize) -> u64
    requires { Room k t.now p.now × (c < REST) }
    ensures { Reads k (λ s. count (free (s c)) n) t.now p.now result }
{
    bits::count_free(column(t, p, k, c), n) as u64
}

// Entry e is free no more.
pub fn take_bit(t: &mut [u64], p: &[u8], k: Caps, c: usize, e: u64)
    requires { Room k t.old p.now × (c < REST) }
    ensures { Makes k (λ s. take_bit s c e) t.old p.now t.new p.now }
{
    bits::take(&mut t[words_of(k, c)], e as usize);
}

// Entry e is free again.
pub fn free_bit(t: &mut [u64], p: &[u8], k: Caps, c: usize, e: u64)
    requires { Room k t.old p.now × (c < REST) }
    ensures { Makes k (λ s. free_bit s c e) t.old p.now t.new p.now }
{
    bits::release(&mut t[words_of(k, c)], e as usize);
}

// The lowest entry of column c that nobody uses; the size where all are in use.
pub fn lowest_unused(t: &[u64], p: &[u8], k: Caps, c: usize) -> u64
    requires { Room k t.now p.now × (c < REST) }
    ensures { Reads k (λ s. lowest (unused (s c)) (size k c)) t.now p.now result }
{
    slots::lowest_unused(column(t, p, k, c)) as u64
}

// How many of its entries nobody uses.
pub fn count_unused(t: &[u64], p: &[u8], k: Caps, c: usize) -> u64
    requires { Room k t.now p.now × (c < REST) }
    ensures { Reads k (λ s. count (unused (s c)) (size k c)) t.now p.now result }
{
    slots::count_unused(column(t, p, k, c)) as u64
}

// The lowest slot that is unused and not worn, by its words and its ages; the number of slots where there is none.
pub fn lowest_slot(t: &[u64], p: &[u8], k: Caps, words: usize, ages: usize, max: u64) -> u64
    requires { Room k t.now p.now × (words < REST) × (ages < REST) }
    ensures { Reads k (λ s. lowest (usable max (s words) (s ages)) (size k words)) t.now p.now result }
{
    slots::lowest_usable(column(t, p, k, words), column(t, p, k, ages), max) as u64
}

// How many such slots there are.
pub fn count_slots(t: &[u64], p: &[u8], k: Caps, words: usize, ages: usize, max: u64) -> u64
    requires { Room k t.now p.now × (words < REST) × (ages < REST) }
    ensures { Reads k (λ s. count (usable max (s words) (s ages)) (size k words)) t.now p.now result }
{
    slots::count_usable(column(t, p, k, words), column(t, p, k, ages), max) as u64
}

// Is id that of the present use of its slot?
pub fn is_live(
    t: &[u64],
    p: &[u8],
    k: Caps,
    words: usize,
    ages: usize,
    factor: u64,
    id: u64,
) -> bool
    requires { Room k t.now p.now × (words < REST) × (ages < REST) × (0 < factor) }
    ensures { Reads k (λ s. is_live factor (s words) (s ages) id) t.now p.now result }
{
    slots::is_live(column(t, p, k, words), column(t, p, k, ages), factor, id)
}
