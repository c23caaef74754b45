// Numbers of eight bytes one after the other in a slice of bytes.
ghost use Rattle.std.specs.Prelude.{◌≡◌, ◌+◌, ◌*◌, ◌≤◌, drop, length};
ghost use Rattle.std.proofs.lemmas.List.Edits.{sets};
ghost use Rattle.trace.specs.Codec.{words};
ghost use Rattle.trace.specs.Promises.{leads};

use records::bytes::{load64, store64};

// The numbers one after the other, from a place on.
pub fn put_words(s: &mut [u8], at: usize, ns: &[u64])
    requires { at + 8 * length ns.now ≤ length s.old }
    ensures { s.new ≡ sets s.old at (words ns.now) }
{
    for (i, n) in ns.iter().enumerate() {
        store64(s, at + 8 * i, *n);
    }
}

// Do these numbers stand there, one after the other, from a place on?
pub fn words_at(s: &[u8], at: usize, ns: &[u64]) -> bool
    requires { at + 8 * length ns.now ≤ length s.now }
    ensures { result ≡ leads (words ns.now) (drop at s.now) }
{
    ns.iter()
        .enumerate()
        .all(|(i, n)| load64(s, at + 8 * i) == *n)
}
