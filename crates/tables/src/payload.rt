// The payload area: 256 bytes for each data entry.
ghost use Rattle.std.specs.Prelude.{◌≡◌, ◌+◌, ◌*◌, ◌<◌, ◌≤◌, length, replicate};
ghost use Rattle.std.proofs.lemmas.List.Edits.{sets};
ghost use Rattle.tables.specs.Columns.{PAYLOAD};
ghost use Rattle.tables.specs.Limits.{ENTRY-BYTES};
ghost use Rattle.tables.specs.State.{at, Room, Reads, Makes};
ghost use Rattle.tables.specs.Action.{write, blank};

use crate::Caps;
use crate::limits::ENTRY_BYTES;

// The bytes of m over q. A loop, so that an archive for C needs no memmove from outside.
pub fn copy(q: &mut [u8], from: usize, m: &[u8])
    requires { from + length m.now ≤ length q.old }
    ensures { q.new ≡ sets q.old from m.now }
{
    for i in 0..m.len() {
        q[from + i] = m[i];
    }
}

// n zeros over q.
pub fn zero(q: &mut [u8], from: usize, n: usize)
    requires { from + n ≤ length q.old }
    ensures { q.new ≡ sets q.old from (replicate n 0) }
{
    q[from..from + n].fill(0);
}

// The bytes of m go into entry d, from its byte i on.
pub fn write(t: &[u64], p: &mut [u8], k: Caps, d: u64, i: usize, m: &[u8])
    requires { Room k t.now p.old × (d < k.datas) × (i + length m.now ≤ ENTRY-BYTES) }
    ensures { Makes k (λ s. write s d i m.now) t.now p.old t.now p.new }
{
    copy(p, ENTRY_BYTES * (d as usize) + i, m);
}

// All bytes of entry d are zero.
pub fn blank(t: &[u64], p: &mut [u8], k: Caps, d: u64)
    requires { Room k t.now p.old × (d < k.datas) }
    ensures { Makes k (λ s. blank s d) t.now p.old t.now p.new }
{
    zero(p, ENTRY_BYTES * (d as usize), ENTRY_BYTES);
}

// Byte i of entry d; 0 past the area.
pub fn byte(t: &[u64], p: &[u8], k: Caps, d: u64, i: usize) -> u64
    requires { Room k t.now p.now × (i < ENTRY-BYTES) }
    ensures { Reads k (λ s. at s PAYLOAD (ENTRY-BYTES * d + i)) t.now p.now result }
{
    if d < k.datas as u64 {
        p[ENTRY_BYTES * (d as usize) + i] as u64
    } else {
        0
    }
}
