// Runs of zero bytes, looked at eight at a time.
ghost use Rattle.std.specs.Prelude.{◌≡◌, ◌+◌, ◌-◌, ◌*◌, ◌≤◌, ◌<◌, eqb, length};
ghost use Rattle.rules.specs.Rule.{test};
ghost use Rattle.rules.specs.Sound.{zeros};
ghost use Rattle.tables.specs.Limits.{ENTRY-BYTES};

use records::bytes::load64;
use tables::limits::ENTRY_BYTES;

// n numbers of eight bytes each, one after the other, joined by OR, with no way out.
pub fn joined(p: &[u8], at: usize, n: usize) -> u64
    requires { at + 8 * n ≤ length p.now }
    ensures { eqb result 0 ≡ test (zeros p.now at (8 * n)) }
{
    let mut any = 0;
    for i in 0..n {
        any |= load64(p, at + 8 * i);
    }
    any
}

// Are the n bytes from a place on zero?
fn zero_run(p: &[u8], at: usize, n: usize) -> bool
    requires { at + n ≤ length p.now }
    ensures { result ≡ test (zeros p.now at n) }
{
    p[at..at + n].iter().all(|byte| *byte == 0)
}

// Is an entry zero from its byte s on? n words from there on and the entry's last n words, which meet, are all that is left of it.
fn both_ends(p: &[u8], from: usize, s: usize, n: usize) -> bool
    requires { (from + ENTRY-BYTES ≤ length p.now) × (s + 8 * n ≤ ENTRY-BYTES) × (ENTRY-BYTES ≤ s + 16 * n) }
    ensures { result ≡ test (zeros p.now (from + s) (ENTRY-BYTES - s)) }
{
    let first = joined(p, from + s, n);
    let last = joined(p, from + (ENTRY_BYTES - 8 * n), n);
    (first | last) == 0
}

// The same, with as few words as will do.
pub fn rest_zero(p: &[u8], from: usize, s: usize) -> bool
    requires { (from + ENTRY-BYTES ≤ length p.now) × (s ≤ ENTRY-BYTES) }
    ensures { result ≡ test (zeros p.now (from + s) (ENTRY-BYTES - s)) }
{
    if s <= 128 {
        return both_ends(p, from, s, 16);
    }
    if s <= 192 {
        return both_ends(p, from, s, 8);
    }
    if s <= 224 {
        return both_ends(p, from, s, 4);
    }
    if s <= 240 {
        return both_ends(p, from, s, 2);
    }
    if s <= 248 {
        return both_ends(p, from, s, 1);
    }
    zero_run(p, from + s, ENTRY_BYTES - s)
}
