// A counted list: its first words are entries, and the others are 0.
ghost use Rattle.std.specs.Prelude.{◌≡◌, ◌≤◌, length, get_or};
ghost use Rattle.rules.specs.Rule.{test, each, lt, le, eq, imp};
ghost use Rattle.rules.specs.Sound.{list_rule};

// Are the first m words below n?
fn below(s: &[u64], m: usize, n: u64) -> bool
    requires { m ≤ length s.now }
    ensures { result ≡ test (each m (λ i. lt (get_or s.now i 0) n)) }
{
    let mut ok = true;
    for x in &s[..m] {
        ok &= *x < n;
    }
    ok
}

// Are the words from the m-th up to the n-th 0? One OR over all of them.
pub fn zero_from(s: &[u64], m: usize, n: usize) -> bool
    requires { (m ≤ n) × (n ≤ length s.now) }
    ensures { result ≡ test (each n (λ i. imp (le m i) (eq (get_or s.now i 0) 0))) }
{
    s[m..n].iter().fold(0, |any, x| any | *x) == 0
}

// A list of n words, of which m count.
pub fn list_ok(s: &[u64], m: u64, n: usize) -> bool
    requires { n ≤ length s.now }
    ensures { result ≡ test (each n (λ i. list_rule n m s.now i)) }
{
    let count = m as usize;
    if count < n {
        let low = below(s, count, n as u64);
        let rest = zero_from(s, count, n);
        return low & rest;
    }
    below(s, n, n as u64)
}
