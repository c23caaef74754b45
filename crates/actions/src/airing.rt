// Values that have reached their age end.
ghost use Rattle.std.specs.Prelude.{cond, ◌-◌, ◌<◌};
ghost use Rattle.tables.specs.Columns.{BUS-AGE, ISSUED, VALUE-BUS};
ghost use Rattle.tables.specs.State.{at, head, Room, RoomWith, Reads, Makes};
ghost use Rattle.rules.specs.Buses.{aired, is_stale, retire};
ghost use Rattle.actions.specs.Ageing.{Dated};

use crate::values::{retire, value_at};
use reading::names::named;
use tables::Caps;
use tables::columns::{BUS_AGE, CLOCK, ISSUED, PUBLISHED, VALUE_BUS};
use tables::words::get;

// The age, in milliseconds, to which data entry d stands on its bus; 0 where its bus asks for none.
fn age_of(t: &[u64], p: &[u8], k: Caps, d: u64) -> u64
    requires { Room k t.now p.now }
    ensures { Reads k (λ s. at s BUS-AGE (at s VALUE-BUS d - 1)) t.now p.now result }
{
    let bus = get(t, p, k, VALUE_BUS, d);
    get(t, p, k, BUS_AGE, named(bus))
}

// Has the i-th value reached its age?
fn is_stale(t: &[u64], p: &[u8], k: Caps, i: u64) -> bool
    requires { RoomWith k (Dated k) t.now p.now }
    ensures { Reads k (λ s. is_stale s i) t.now p.now result }
{
    let d = value_at(t, p, k, i);
    let age = age_of(t, p, k, d);
    let published = get(t, p, k, PUBLISHED, d);
    let clock = get(t, p, k, CLOCK, 0);
    age != 0 && published + 1000 * age <= clock
}

// The i-th value ends if it has reached its age.
fn air(t: &mut [u64], p: &mut [u8], k: Caps, i: u64)
    requires { RoomWith k (λ s. Dated k s × (i < head s ISSUED)) t.old p.old }
    ensures { Makes k (λ s. cond (is_stale s i) (retire s i) s) t.old p.old t.new p.new }
{
    if is_stale(t, p, k, i) {
        retire(t, p, k, i);
    }
}

// All that have reached their age end, the newest first.
pub fn air_all(t: &mut [u64], p: &mut [u8], k: Caps)
    requires { RoomWith k (Dated k) t.old p.old }
    ensures { Makes k aired t.old p.old t.new p.new }
{
    for i in (0..get(t, p, k, ISSUED, 0)).rev() {
        air(t, p, k, i);
    }
}
