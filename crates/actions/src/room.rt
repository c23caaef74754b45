// The entry of each pool that a call would take: always the lowest. Past the last where there is none.
ghost use Rattle.tables.specs.State.{Room, Reads};
ghost use Rattle.rules.specs.Actions.{mail_for, data_for, has_room};
ghost use Rattle.rules.specs.Calls.{slot_for, timer_for, link_for, monitor_for};

use tables::Caps;
use tables::columns::{
    AGE, DATA_FREE, LINK_ONE, MAIL_FREE, MONITOR_AGE, STATE, TIMER_AGE, TIMER_OWNER, WATCHER,
};
use tables::free::{lowest_bit, lowest_slot, lowest_unused};
use tables::limits::OLDEST;

// The slot for a new actor.
pub fn slot_for(t: &[u64], p: &[u8], k: Caps) -> u64
    requires { Room k t.now p.now }
    ensures { Reads k (slot_for k) t.now p.now result }
{
    lowest_slot(t, p, k, STATE, AGE, OLDEST)
}

// The slot for a new timer.
pub fn timer_for(t: &[u64], p: &[u8], k: Caps) -> u64
    requires { Room k t.now p.now }
    ensures { Reads k (timer_for k) t.now p.now result }
{
    lowest_slot(t, p, k, TIMER_OWNER, TIMER_AGE, OLDEST)
}

// The slot for a new monitor.
pub fn monitor_for(t: &[u64], p: &[u8], k: Caps) -> u64
    requires { Room k t.now p.now }
    ensures { Reads k (monitor_for k) t.now p.now result }
{
    lowest_slot(t, p, k, WATCHER, MONITOR_AGE, OLDEST)
}

// The entry for a new link.
pub fn link_for(t: &[u64], p: &[u8], k: Caps) -> u64
    requires { Room k t.now p.now }
    ensures { Reads k (link_for k) t.now p.now result }
{
    lowest_unused(t, p, k, LINK_ONE)
}

// The mailbox entry for a message.
pub fn mail_for(t: &[u64], p: &[u8], k: Caps) -> u64
    requires { Room k t.now p.now }
    ensures { Reads k (mail_for k) t.now p.now result }
{
    lowest_bit(t, p, k, MAIL_FREE, k.mails)
}

// The data entry for a message.
pub fn data_for(t: &[u64], p: &[u8], k: Caps) -> u64
    requires { Room k t.now p.now }
    ensures { Reads k (data_for k) t.now p.now result }
{
    lowest_bit(t, p, k, DATA_FREE, k.datas)
}

// Have both message pools room?
pub fn has_room(t: &[u64], p: &[u8], k: Caps) -> bool
    requires { Room k t.now p.now }
    ensures { Reads k (has_room k) t.now p.now result }
{
    mail_for(t, p, k) < k.mails as u64 && data_for(t, p, k) < k.datas as u64
}
