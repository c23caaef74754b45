// Links. The slots at both ends are written one up, as in the columns.
ghost use Rattle.tables.specs.Columns.{LINK-ONE, LINK-TWO};
ghost use Rattle.tables.specs.State.{Room, Reads, Makes};
ghost use Rattle.rules.specs.Terms.{joins};
ghost use Rattle.rules.specs.Calls.{tie, link_of};

use tables::Caps;
use tables::columns::{LINK_ONE, LINK_TWO};
use tables::words::{get, put};

// Entry e has the ends a and b; with 0 and 0 it is free.
#[tactic(auto, unfolding(rules::specs::Calls::tie))]
pub fn tie(t: &mut [u64], p: &[u8], k: Caps, e: u64, a: u64, b: u64)
    requires { Room k t.old p.now }
    ensures { Makes k (λ s. tie s e a b) t.old p.now t.new p.now }
{
    put(t, p, k, LINK_ONE, e, a);
    put(t, p, k, LINK_TWO, e, b);
}

// Does entry e join a and b?
#[tactic(auto, unfolding(rules::specs::Terms::joins))]
fn joins(t: &[u64], p: &[u8], k: Caps, a: u64, b: u64, e: u64) -> bool
    requires { Room k t.now p.now }
    ensures { Reads k (λ s. joins (s LINK-ONE) (s LINK-TWO) a b e) t.now p.now result }
{
    let one = get(t, p, k, LINK_ONE, e);
    let two = get(t, p, k, LINK_TWO, e);
    (one == a && two == b) || (one == b && two == a)
}

// The entry that joins a and b; past the last where there is none.
pub fn link_of(t: &[u64], p: &[u8], k: Caps, a: u64, b: u64) -> u64
    requires { Room k t.now p.now }
    ensures { Reads k (λ s. link_of k s a b) t.now p.now result }
{
    let n = k.links as u64;
    for e in 0..n {
        if joins(t, p, k, a, b, e) {
            return e;
        }
    }
    n
}
