// Who is first: of the queue, one list of slots whose levels are told apart by the actors' priorities;
// and of the arrivals, one list of mailbox entries whose mailboxes are told apart by their owners.
ghost use Rattle.std.specs.Prelude.{suc, ◌<◌, eqb};
ghost use Rattle.records.specs.Header.{class_of, tag_of};
ghost use Rattle.tables.specs.Columns.{ARRIVAL, MAIL-OWNER, PRIORITY, QUEUE, SENDER};
ghost use Rattle.tables.specs.Limits.{LEVELS, SAFE};
ghost use Rattle.tables.specs.State.{at, Room, Reads};
ghost use Rattle.rules.specs.Terms.{fits, header};
ghost use Rattle.rules.specs.Calls.{first_head, match_at, first_match, data_of, place_of};

use reading::filters::fits;
use reading::headers::{class_in, header_at, tag_in};
use reading::names::named;
use tables::Caps;
use tables::columns::{ARRIVAL, ARRIVED, MAIL_DATA, MAIL_OWNER, PRIORITY, QUEUE, QUEUED, SENDER};
use tables::limits::LEVELS;
use tables::words::get;

// The level of the i-th of the queue.
fn level_of(t: &[u64], p: &[u8], k: Caps, i: u64) -> u64
    requires { Room k t.now p.now }
    ensures { Reads k (λ s. at s PRIORITY (at s QUEUE i)) t.now p.now result }
{
    let a = get(t, p, k, QUEUE, i);
    get(t, p, k, PRIORITY, a)
}

// The place of the head of the first level that is not empty; past the queue where all are.
pub fn first_head(t: &[u64], p: &[u8], k: Caps) -> u64
    requires { Room k t.now p.now }
    ensures { Reads k (λ s. first_head s LEVELS) t.now p.now result }
{
    let n = get(t, p, k, QUEUED, 0);
    let mut first = n;
    let mut best = LEVELS;
    for i in 0..n {
        let level = level_of(t, p, k, i);
        if level == 0 {
            return i;
        }
        if level < best {
            best = level;
            first = i;
        }
    }
    first
}

// The place of slot a; past the queue where it is not there.
pub fn queue_place(t: &[u64], p: &[u8], k: Caps, a: u64) -> u64
    requires { Room k t.now p.now }
    ensures { Reads k (λ s. place_of s a) t.now p.now result }
{
    let n = get(t, p, k, QUEUED, 0);
    for i in 0..n {
        if get(t, p, k, QUEUE, i) == a {
            return i;
        }
    }
    n
}

// The data entry of the j-th arrival.
pub fn data_of(t: &[u64], p: &[u8], k: Caps, j: u64) -> u64
    requires { Room k t.now p.now }
    ensures { Reads k (λ s. data_of s j) t.now p.now result }
{
    let e = get(t, p, k, ARRIVAL, j);
    named(get(t, p, k, MAIL_DATA, e))
}

// Is the i-th arrival slot a's?
pub fn is_mine(t: &[u64], p: &[u8], k: Caps, a: u64, i: u64) -> bool
    requires { Room k t.now p.now × (a < SAFE) }
    ensures { Reads k (λ s. eqb (at s MAIL-OWNER (at s ARRIVAL i)) (suc a)) t.now p.now result }
{
    let e = get(t, p, k, ARRIVAL, i);
    get(t, p, k, MAIL_OWNER, e) == a + 1
}

// Does a filter match data entry d?
fn fits_entry(t: &[u64], p: &[u8], k: Caps, sender: u64, class: u64, tag: u64, d: u64) -> bool
    requires { Room k t.now p.now }
    ensures { Reads k (λ s. fits sender class tag (at s SENDER d) (class_of (header s d)) (tag_of (header s d))) t.now p.now result }
{
    let from = get(t, p, k, SENDER, d);
    let header = header_at(t, p, k, d);
    fits(sender, class, tag, from, class_in(header), tag_in(header))
}

// Is the i-th arrival slot a's, and does the filter match it?
fn match_at(t: &[u64], p: &[u8], k: Caps, a: u64, sender: u64, class: u64, tag: u64, i: u64) -> bool
    requires { Room k t.now p.now × (a < SAFE) }
    ensures { Reads k (λ s. match_at s a sender class tag i) t.now p.now result }
{
    is_mine(t, p, k, a, i) && fits_entry(t, p, k, sender, class, tag, data_of(t, p, k, i))
}

// The first arrival of slot a that the filter matches; past the arrivals where there is none.
pub fn first_match(t: &[u64], p: &[u8], k: Caps, a: u64, sender: u64, class: u64, tag: u64) -> u64
    requires { Room k t.now p.now × (a < SAFE) }
    ensures { Reads k (λ s. first_match s a sender class tag) t.now p.now result }
{
    let n = get(t, p, k, ARRIVED, 0);
    for i in 0..n {
        if match_at(t, p, k, a, sender, class, tag, i) {
            return i;
        }
    }
    n
}
