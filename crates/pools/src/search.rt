// Searches of the numbers below n by a test: the lowest that passes, and how many pass.
ghost use Rattle.std.specs.Prelude.{◌≡◌, ℕ, ◌<◌, Bool};
ghost use Rattle.pools.specs.Pool.{lowest, count, ComputesBelow};

// The lowest number below n that passes; n where none does.
pub fn lowest<F: Fn(usize) -> bool>(n: usize, passes: F) -> usize
    requires { (i : ℕ) → i < n → F.pre passes i }
    ensures { (p : ℕ → Bool) → ComputesBelow n (F.post passes) p → result ≡ lowest p n }
{
    for i in 0..n {
        if passes(i) {
            return i;
        }
    }
    n
}

// How many numbers below n pass.
pub fn count<F: Fn(usize) -> bool>(n: usize, passes: F) -> usize
    requires { (i : ℕ) → i < n → F.pre passes i }
    ensures { (p : ℕ → Bool) → ComputesBelow n (F.post passes) p → result ≡ count p n }
{
    let mut c: usize = 0;
    for i in 0..n {
        c += passes(i) as usize;
    }
    c
}
