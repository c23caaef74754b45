// The two editions of the records: ids of eight bytes in the new one, of four in the old.
ghost use Rattle.std.specs.Prelude.{◌≡◌, ℕ, ◌+◌, ◌≤◌, length, refl};
ghost use Rattle.std.proofs.lemmas.List.Edits.{sets};
ghost use Rattle.std.proofs.Common.{arith};
ghost use Rattle.records.specs.Bytes.{le, field};
ghost use Rattle.records.specs.Records.{Edition, NEW, OLD};

use crate::bytes::{load32, load64, store32, store64};

// An id, and what its edition has: the bytes of an id, the kind of a tick and that of an exit record.
pub trait Id: Copy + Drop {
    // The edition as the specs have it, and the number that an id is.
    ghost edition: { Edition };

    ghost number: { Self → ℕ };

    // The edition's numbers, as the code has them.
    ghost WIDTH: { ℕ };

    ghost TICK: { ℕ };

    ghost EXIT: { ℕ };

    const WIDTH: u16;

    const TICK: u16;

    const EXIT: u16;

    // Stores it from a place on.
    fn store(self, s: &mut [u8], at: usize)
        requires { at + edition.width ≤ length s.old }
        ensures { s.new ≡ sets s.old at (le edition.width (number self)) };

    // The one that is stored from a place on.
    fn load(s: &[u8], at: usize) -> Self
        requires { at + edition.width ≤ length s.now }
        ensures { number result ≡ field edition.width at s.now };

    // Its number, in eight bytes whatever the edition.
    fn wide(self) -> u64
        ensures { result ≡ number self };

    // They are the same numbers, and an id is short.
    ghost width_stated: { edition.width ≡ WIDTH };

    ghost tick_stated: { edition.tick ≡ TICK };

    ghost exit_stated: { edition.exit ≡ EXIT };

    ghost narrow: { WIDTH ≤ 8 };
}

impl Id for u64 {
    ghost edition = { NEW };

    ghost number = { λ id. id };

    ghost WIDTH = { 8 };

    ghost TICK = { 3 };

    ghost EXIT = { 4 };

    ghost width_stated = { refl };

    ghost tick_stated = { refl };

    ghost exit_stated = { refl };

    ghost narrow = { Prim.search arith };

    const WIDTH: u16 = 8;

    const TICK: u16 = 3;

    const EXIT: u16 = 4;

    fn store(self, s: &mut [u8], at: usize) {
        store64(s, at, self);
    }

    fn load(s: &[u8], at: usize) -> u64 {
        load64(s, at)
    }

    fn wide(self) -> u64 {
        self
    }
}

impl Id for u32 {
    ghost edition = { OLD };

    ghost number = { λ id. id };

    ghost WIDTH = { 4 };

    ghost TICK = { 1 };

    ghost EXIT = { 2 };

    ghost width_stated = { refl };

    ghost tick_stated = { refl };

    ghost exit_stated = { refl };

    ghost narrow = { Prim.search arith };

    const WIDTH: u16 = 4;

    const TICK: u16 = 1;

    const EXIT: u16 = 2;

    fn store(self, s: &mut [u8], at: usize) {
        store32(s, at, self);
    }

    fn load(s: &[u8], at: usize) -> u32 {
        load32(s, at)
    }

    fn wide(self) -> u64 {
        self as u64
    }
}
