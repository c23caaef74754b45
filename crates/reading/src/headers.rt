// Headers of data entries, and what they tell.
ghost use Rattle.std.specs.Prelude.{◌≡◌};
ghost use Rattle.records.specs.Header.{class_of, tag_of};
ghost use Rattle.rules.specs.Terms.{header};
ghost use Rattle.tables.specs.State.{Room, Reads};

use records::bytes::load32;
use records::header::{class_of, tag_of};
use tables::Caps;
use tables::limits::ENTRY_BYTES;

// The header of data entry d; 0 past the last entry.
pub fn header_at(t: &[u64], p: &[u8], k: Caps, d: u64) -> u32
    requires { Room k t.now p.now }
    ensures { Reads k (λ s. header s d) t.now p.now result }
{
    if d < k.datas as u64 {
        load32(p, ENTRY_BYTES * d as usize)
    } else {
        0
    }
}

// The class that a header tells.
pub fn class_in(header: u32) -> u64
    ensures { result ≡ class_of header }
{
    u64::from(class_of(header))
}

// The tag.
pub fn tag_in(header: u32) -> u64
    ensures { result ≡ tag_of header }
{
    u64::from(tag_of(header))
}
