// The searches of the free bits in two forms with one promise each: bit by bit, as they once were, and word by word, as the library has them.
// Nothing stands on them: ./speed times them side by side.
#![tactic(auto)]

ghost use Rattle.std.specs.Prelude.{◌≡◌};
ghost use Rattle.pools.specs.Pool.{lowest, count};
ghost use Rattle.pools.specs.Bits.{free};

use pools::{bits, search};

// The lowest free entry of n, looking at the bits one after the other; n where none is free.
pub fn lowest_by_bits(w: &[u64], n: usize) -> usize
    ensures { result ≡ lowest (free w.now) n }
{
    search::lowest(n, |i| bits::is_free(w, i))
}

// The same as the library finds it.
pub fn lowest_by_words(w: &[u64], n: usize) -> usize
    ensures { result ≡ lowest (free w.now) n }
{
    bits::lowest_free(w, n)
}

// How many of n entries are free, looking at the bits one after the other.
pub fn count_by_bits(w: &[u64], n: usize) -> usize
    ensures { result ≡ count (free w.now) n }
{
    search::count(n, |i| bits::is_free(w, i))
}

// The same as the library counts them.
pub fn count_by_words(w: &[u64], n: usize) -> usize
    ensures { result ≡ count (free w.now) n }
{
    bits::count_free(w, n)
}
