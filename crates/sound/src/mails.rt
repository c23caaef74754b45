// The rules of a mailbox entry, and of the message in it where its owner waits.
ghost use Rattle.std.specs.Prelude.{◌≡◌, ◌*◌, ◌/◌, ◌<◌, get_or};
ghost use Rattle.pools.specs.Bits.{WORD-BITS};
ghost use Rattle.rules.specs.Rule.{each};
ghost use Rattle.rules.specs.Host.{Tests};
ghost use Rattle.sound.specs.Kinds.{keep_rule, kept_rule, mails_rule};
ghost use Rattle.sound.specs.Standing.{Standing, Lent};
ghost use Rattle.tables.specs.Columns.{STATE};
ghost use Rattle.tables.specs.State.{RoomWith};

use crate::lists::zero_from;
use crate::standing::{lives, waits};
use pools::bits::{WORD_BITS, bit_of};
use reading::filters::awaited;
use reading::names::named;
use tables::Caps;
use tables::columns::{MAIL_DATA, MAIL_FREE, MAIL_OWNER};
use tables::words::column;

// The mailboxes, and what their test is lent: the row that says how the slots stand, and the columns of free bits, owners and entries.
#[derive(Clone, Copy)]
struct Mails<'a> {
    t: &'a [u64],
    p: &'a [u8],
    k: Caps,
    row: &'a [u8],
    bits: &'a [u64],
    owners: &'a [u64],
    entries: &'a [u64],
    ghost lent: { RoomWith k (λ s. Lent s row.now bits.now owners.now entries.now) t.now p.now },
}

impl Mails<'_> {
    // The words of an entry in use: a live owner's, and a data entry's, which the owner does not await.
    fn keep_ok(&self, owner: u64, entry: u64) -> bool
        ensures { Tests self.now.k (λ s. keep_rule self.now.k s owner entry) self.now.t.now self.now.p.now result }
    {
        let lives = lives(self.row, owner);
        let fine = lives & ((1 <= entry) & (entry <= (self.k.datas as u64)));
        if waits(self.row, owner) {
            return fine & !awaited(self.t, self.p, self.k, named(owner), named(entry));
        }
        fine
    }

    // Entry e, by the free bits of its run.
    fn kept_ok(&self, free: u64, e: usize) -> bool
        requires { (e < self.now.k.mails) × (free ≡ get_or self.now.bits.now (e / WORD-BITS) 0) }
        ensures { Tests self.now.k (λ s. kept_rule self.now.k s e) self.now.t.now self.now.p.now result }
    {
        let owner = self.owners[e];
        let entry = self.entries[e];
        if bit_of(free, e % WORD_BITS) == 1 {
            return (owner | entry) == 0;
        }
        self.keep_ok(owner, entry)
    }

    // The run of entries that have their free bits in word j. Where all of it is free the words of owners and entries are joined; else there is no way out.
    fn run_ok(&self, j: usize) -> bool
        requires { WORD-BITS * j < self.now.k.mails }
        ensures { Tests self.now.k (λ s. mails_rule self.now.k s j) self.now.t.now self.now.p.now result }
    {
        let from = WORD_BITS * j;
        let end = self.k.mails.min(from + WORD_BITS);
        let free = self.bits[j];
        if free == u64::MAX {
            let owned = zero_from(self.owners, from, end);
            let held = zero_from(self.entries, from, end);
            return owned & held;
        }
        let mut ok = true;
        for e in from..end {
            ok &= self.kept_ok(free, e);
        }
        ok
    }
}

// The mailbox entries, with the filters of their owners, run by run.
pub fn kept(t: &[u64], p: &[u8], k: Caps, row: &[u8]) -> bool
    requires { RoomWith k (λ s. Standing (s STATE) row.now) t.now p.now }
    ensures { Tests k (λ s. each k.mails (λ e. kept_rule k s e)) t.now p.now result }
{
    let mails = Mails {
        t,
        p,
        k,
        row,
        bits: column(t, p, k, MAIL_FREE),
        owners: column(t, p, k, MAIL_OWNER),
        entries: column(t, p, k, MAIL_DATA),
    };
    (0..k.mails.div_ceil(WORD_BITS)).all(|j| mails.run_ok(j))
}
