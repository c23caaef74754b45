// Counted lists: a column whose first words count, and a word of the head that says how many.
ghost use Rattle.std.specs.Prelude.{◌≡◌, ◌<◌, ◌≤◌, length};
ghost use Rattle.tables.specs.Columns.{REST};
ghost use Rattle.tables.specs.Limits.{SAFE};
ghost use Rattle.tables.specs.State.{head, with_col, size, Room, RoomWith, Makes};
ghost use Rattle.tables.specs.Action.{closed, push, pull};

use crate::Caps;
use crate::layout::words_of;
use crate::words::{get, put};

// v joins the tail.
#[tactic(auto, unfolding(crate::specs::Action::push))]
pub fn push(t: &mut [u64], p: &[u8], k: Caps, list: usize, count: usize, v: u64)
    requires { RoomWith k (λ s. (list < REST) × (count < REST) × (head s count ≤ SAFE)) t.old p.now }
    ensures { Makes k (λ s. push s list count v) t.old p.now t.new p.now }
{
    let n = get(t, p, k, count, 0);
    put(t, p, k, list, n, v);
    put(t, p, k, count, 0, n + 1);
}

// The words of q after its j-th move up by one, and the last is 0.
fn close_up(q: &mut [u64], j: usize)
    requires { j < length q.old }
    ensures { q.new ≡ closed (length q.old) j q.old }
{
    let last = q.len() - 1;
    for i in j..last {
        q[i] = q[i + 1];
    }
    q[last] = 0;
}

// The j-th of the n words of column c leaves.
fn close_column(t: &mut [u64], p: &[u8], k: Caps, c: usize, n: usize, j: usize)
    requires { Room k t.old p.now × (c < REST) × (n ≤ size k c) × (j < n) }
    ensures { Makes k (λ s. with_col s c (closed n j (s c))) t.old p.now t.new p.now }
{
    let from = words_of(k, c).start;
    close_up(&mut t[from..from + n], j);
}

// The j-th of a list leaves it.
#[tactic(auto, unfolding(crate::specs::Action::pull))]
pub fn pull(t: &mut [u64], p: &[u8], k: Caps, list: usize, count: usize, j: u64)
    requires { RoomWith k (λ s. (list < REST) × (count < REST) × (j < head s count) × (head s count ≤ size k list)) t.old p.now }
    ensures { Makes k (λ s. pull s list count j) t.old p.now t.new p.now }
{
    let n = get(t, p, k, count, 0);
    close_column(t, p, k, list, n as usize, j as usize);
    put(t, p, k, count, 0, n - 1);
}
