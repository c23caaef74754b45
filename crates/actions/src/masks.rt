// Who reads a value: two masks of 32 bits in one word, who has read it in the low half and who may still read it in the high half.
ghost use Rattle.std.specs.Prelude.{◌≡◌, ◌<◌};
ghost use Rattle.tables.specs.Limits.{MOST-SEATS};
ghost use Rattle.rules.specs.Buses.{may_read, read_by, signed};

use pools::bits::{bit_of, cleared, marked};
use tables::limits::MOST_SEATS;

// May the one in seat n still read it?
pub fn may_read(mask: u64, n: u64) -> bool
    requires { n < MOST-SEATS }
    ensures { result ≡ may_read mask n }
{
    bit_of(mask, MOST_SEATS + n as usize) == 1
}

// How many have read it?
pub fn read_by(mask: u64) -> u64
    ensures { result ≡ read_by mask }
{
    u64::from((mask % (1 << MOST_SEATS)).count_ones())
}

// The one in seat n reads it: its bit goes from one mask to the other.
pub fn signed(mask: u64, n: u64) -> u64
    requires { n < MOST-SEATS }
    ensures { result ≡ signed mask n }
{
    let rest = cleared(mask, MOST_SEATS + n as usize);
    marked(rest, n as usize)
}
