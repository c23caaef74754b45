// The searches of the free bits in two forms for C, which ./speed links: each export is the library's function, and promises what that does.
#![tactic(auto)]

ghost use Rattle.std.specs.Prelude.{◌≡◌};
ghost use Rattle.pools.specs.Pool.{lowest, count};
ghost use Rattle.pools.specs.Bits.{free};

// The lowest free entry of n, looking at the bits one after the other; n where none is free.
#[unsafe(no_mangle)]
pub extern "C" fn lowest_by_bits(w: &[u64], n: usize) -> usize
    ensures { result ≡ lowest (free w.now) n }
{
    searches::lowest_by_bits(w, n)
}

// The same as the library finds it.
#[unsafe(no_mangle)]
pub extern "C" fn lowest_by_words(w: &[u64], n: usize) -> usize
    ensures { result ≡ lowest (free w.now) n }
{
    searches::lowest_by_words(w, n)
}

// How many of n entries are free, looking at the bits one after the other.
#[unsafe(no_mangle)]
pub extern "C" fn count_by_bits(w: &[u64], n: usize) -> usize
    ensures { result ≡ count (free w.now) n }
{
    searches::count_by_bits(w, n)
}

// The same as the library counts them.
#[unsafe(no_mangle)]
pub extern "C" fn count_by_words(w: &[u64], n: usize) -> usize
    ensures { result ≡ count (free w.now) n }
{
    searches::count_by_words(w, n)
}
