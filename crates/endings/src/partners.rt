// Which link joins a slot with each other one, found in one pass over the links: a place for each slot.
ghost use Rattle.std.specs.Prelude.{◌≡◌, ◌≤◌, None, length, replicate};
ghost use Rattle.tables.specs.Columns.{LINK-ONE, LINK-TWO};
ghost use Rattle.tables.specs.Limits.{MOST-ACTORS, MOST-LINKS};
ghost use Rattle.tables.specs.State.{Room, Of};
ghost use Rattle.endings.specs.Partners.{Partners, Placed, other_end, slot_of};

use tables::Caps;
use tables::columns::{LINK_ONE, LINK_TWO};
use tables::limits::MOST_ACTORS;
use tables::words::column;

// The slot at the end of a link that is not x; none where x is at neither. The ends and x are one up, as in the columns.
fn other_end(one: u64, two: u64, x: u64) -> Option<u64>
    ensures { result ≡ slot_of (other_end one two x) }
{
    if one == x {
        two.checked_sub(1)
    } else if two == x {
        one.checked_sub(1)
    } else {
        None
    }
}

// Link e takes the place of slot b, if that has none.
fn note(row: &mut [Option<u8>; MOST_ACTORS], b: u64, e: u8)
    requires { length row.old ≡ MOST-ACTORS }
    ensures { Placed row.old b e row.new }
{
    let b = b as usize;
    if b < MOST_ACTORS {
        row[b] = row[b].or(Some(e));
    }
}

// Of the first n links those that slot x, which is one up, has with each slot, in a row that is lent and has none.
fn partners_in(one: &[u64], two: &[u64], x: u64, n: usize, row: &mut [Option<u8>; MOST_ACTORS])
    requires { (n ≤ MOST-LINKS) × (n ≤ length one.now) × (n ≤ length two.now) × (row.old ≡ replicate MOST-ACTORS None) }
    ensures { Partners one.now two.now x n row.new }
{
    for e in 0..n {
        if let Some(b) = other_end(one[e], two[e], x) {
            note(row, b, e as u8);
        }
    }
}

// The links that slot x, which is one up, has with each slot, in a row that is lent and has none.
pub(crate) fn note_partners(
    t: &[u64],
    p: &[u8],
    k: Caps,
    x: u64,
    row: &mut [Option<u8>; MOST_ACTORS],
)
    requires { Room k t.now p.now × (row.old ≡ replicate MOST-ACTORS None) }
    ensures { Of k (λ s. Partners (s LINK-ONE) (s LINK-TWO) x k.links row.new) t.now p.now }
{
    partners_in(
        column(t, p, k, LINK_ONE),
        column(t, p, k, LINK_TWO),
        x,
        k.links,
        row,
    )
}

// The same row, made here; an exit lends its own (note_partners).
pub fn partners(t: &[u64], p: &[u8], k: Caps, x: u64) -> [Option<u8>; MOST_ACTORS]
    requires { Room k t.now p.now }
    ensures { Of k (λ s. Partners (s LINK-ONE) (s LINK-TWO) x k.links result) t.now p.now }
{
    let mut row = [None; MOST_ACTORS];
    note_partners(t, p, k, x, &mut row);
    row
}
