// Messages: what a data entry holds, whose mailbox names it, and whom its arrival wakes.
ghost use Rattle.std.specs.Prelude.{◌≡◌, true, ◌≤◌, ◌<◌, length};
ghost use Rattle.records.specs.Bytes.{le};
ghost use Rattle.tables.specs.Columns.{ARRIVED, DATA-FREE, LENGTH, QUEUED, SENDER, WANT-CLASS, WANT-SENDER, WANT-TAG};
ghost use Rattle.tables.specs.Limits.{PAYLOAD-MOST, SAFE};
ghost use Rattle.tables.specs.State.{at, head, poke, Room, RoomWith, Reads, Makes};
ghost use Rattle.tables.specs.Action.{take_bit, free_bit, write, blank};
ghost use Rattle.rules.specs.Terms.{fits};
ghost use Rattle.rules.specs.Actions.{fill, unfill, enlist, delist, hears, stir, has_room, post, let_go};
ghost use Rattle.actions.specs.Emptying.{disown};

use crate::room::{data_for, mail_for};
use crate::running::wake;
use reading::filters::fits;
use reading::headers::{class_in, tag_in};
use records::bytes::store32;
use rules::states::{MESSAGE, WAITS};
use tables::columns::{
    ARRIVAL, ARRIVED, DATA_FREE, HAND, LENGTH, MAIL_DATA, MAIL_FREE, MAIL_OWNER, SENDER, STATE,
    WANT_CLASS, WANT_SENDER, WANT_TAG,
};
use tables::free::{free_bit, take_bit};
use tables::limits::{ENTRY_BYTES, HEADER_BYTES};
use tables::lists::{pull, push};
use tables::words::{get, put};
use tables::{Caps, payload};

// ---- what a data entry holds
// Data entry d is taken, and its words tell the sender and the length.
fn mark(t: &mut [u64], p: &[u8], k: Caps, d: u64, sender: u64, length: u64)
    requires { Room k t.old p.now }
    ensures { Makes k (λ s. poke (poke (take_bit s DATA-FREE d) SENDER d sender) LENGTH d length) t.old p.now t.new p.now }
{
    take_bit(t, p, k, DATA_FREE, d);
    put(t, p, k, SENDER, d, sender);
    put(t, p, k, LENGTH, d, length);
}

// Data entry d begins with a header.
fn put_header(t: &[u64], p: &mut [u8], k: Caps, d: u64, header: u32)
    requires { Room k t.now p.old × (d < k.datas) }
    ensures { Makes k (λ s. write s d 0 (le 4 header)) t.now p.old t.now p.new }
{
    store32(p, ENTRY_BYTES * (d as usize), header);
}

// Data entry d is taken, and holds a message.
#[tactic(auto, unfolding(rules::specs::Actions::fill))]
pub fn fill(t: &mut [u64], p: &mut [u8], k: Caps, d: u64, sender: u64, header: u32, payload: &[u8])
    requires { Room k t.old p.old × (d < k.datas) × (length payload.now ≤ PAYLOAD-MOST) }
    ensures { Makes k (λ s. fill s d sender header payload.now) t.old p.old t.new p.new }
{
    mark(t, p, k, d, sender, payload.len() as u64);
    put_header(t, p, k, d, header);
    payload::write(t, p, k, d, HEADER_BYTES, payload);
}

// Data entry d is freed, and its words are 0.
fn unmark(t: &mut [u64], p: &[u8], k: Caps, d: u64)
    requires { Room k t.old p.now }
    ensures { Makes k (λ s. poke (poke (free_bit s DATA-FREE d) SENDER d 0) LENGTH d 0) t.old p.now t.new p.now }
{
    free_bit(t, p, k, DATA_FREE, d);
    put(t, p, k, SENDER, d, 0);
    put(t, p, k, LENGTH, d, 0);
}

// All bytes of data entry d are zero; nothing past the last entry.
fn wipe(t: &[u64], p: &mut [u8], k: Caps, d: u64)
    requires { Room k t.now p.old }
    ensures { Makes k (λ s. blank s d) t.now p.old t.now p.new }
{
    if d < k.datas as u64 {
        payload::blank(t, p, k, d);
    }
}

// Data entry d is freed, and all zero.
#[tactic(auto, unfolding(rules::specs::Actions::unfill))]
pub fn unfill(t: &mut [u64], p: &mut [u8], k: Caps, d: u64)
    requires { Room k t.old p.old }
    ensures { Makes k (λ s. unfill s d) t.old p.old t.new p.new }
{
    unmark(t, p, k, d);
    wipe(t, p, k, d);
}

// The data entry in the hand of slot a is released.
#[tactic(auto, unfolding(rules::specs::Actions::let_go))]
pub fn let_go(t: &mut [u64], p: &mut [u8], k: Caps, a: u64)
    requires { Room k t.old p.old }
    ensures { Makes k (λ s. let_go s a) t.old p.old t.new p.new }
{
    let hand = get(t, p, k, HAND, a);
    if hand != 0 {
        unfill(t, p, k, hand - 1);
        put(t, p, k, HAND, a, 0);
    }
}

// ---- whose mailbox names it
// Mailbox entry e is taken, names data entry d, and joins the tail of slot a's mailbox.
pub fn enlist(t: &mut [u64], p: &[u8], k: Caps, e: u64, a: u64, d: u64)
    requires { RoomWith k (λ s. (a < SAFE) × (d < SAFE) × (head s ARRIVED ≤ SAFE)) t.old p.now }
    ensures { Makes k (λ s. enlist s e a d) t.old p.now t.new p.now }
{
    take_bit(t, p, k, MAIL_FREE, e);
    put(t, p, k, MAIL_OWNER, e, a + 1);
    put(t, p, k, MAIL_DATA, e, d + 1);
    push(t, p, k, ARRIVAL, ARRIVED, e);
}

// Mailbox entry e is freed: it is nobody's, and names no data entry.
#[tactic(auto, unfolding(crate::specs::Emptying::disown))]
pub fn disown(t: &mut [u64], p: &[u8], k: Caps, e: u64)
    requires { Room k t.old p.now }
    ensures { Makes k (λ s. disown s e) t.old p.now t.new p.now }
{
    free_bit(t, p, k, MAIL_FREE, e);
    put(t, p, k, MAIL_OWNER, e, 0);
    put(t, p, k, MAIL_DATA, e, 0);
}

// The mailbox entry that arrived as the j-th leaves its mailbox and is freed.
pub fn delist(t: &mut [u64], p: &[u8], k: Caps, j: u64)
    requires { RoomWith k (λ s. (j < head s ARRIVED) × (head s ARRIVED ≤ k.mails)) t.old p.now }
    ensures { Makes k (λ s. delist s j) t.old p.now t.new p.now }
{
    let e = get(t, p, k, ARRIVAL, j);
    disown(t, p, k, e);
    pull(t, p, k, ARRIVAL, ARRIVED, j);
}

// ---- whom its arrival wakes
// Does the filter of slot a match?
fn suits(t: &[u64], p: &[u8], k: Caps, a: u64, sender: u64, class: u64, tag: u64) -> bool
    requires { Room k t.now p.now }
    ensures { Reads k (λ s. fits (at s WANT-SENDER a) (at s WANT-CLASS a) (at s WANT-TAG a) sender class tag) t.now p.now result }
{
    let want_sender = get(t, p, k, WANT_SENDER, a);
    let want_class = get(t, p, k, WANT_CLASS, a);
    let want_tag = get(t, p, k, WANT_TAG, a);
    fits(want_sender, want_class, want_tag, sender, class, tag)
}

// Does slot a wait for such a message?
pub fn hears(t: &[u64], p: &[u8], k: Caps, a: u64, sender: u64, header: u32) -> bool
    requires { Room k t.now p.now }
    ensures { Reads k (λ s. hears s a sender header) t.now p.now result }
{
    get(t, p, k, STATE, a) == WAITS && suits(t, p, k, a, sender, class_in(header), tag_in(header))
}

// Slot a becomes runnable if it waits for such a message.
#[tactic(auto, unfolding(rules::specs::Actions::stir))]
pub fn stir(t: &mut [u64], p: &[u8], k: Caps, a: u64, sender: u64, header: u32)
    requires { RoomWith k (λ s. head s QUEUED ≤ SAFE) t.old p.now }
    ensures { Makes k (λ s. stir s a sender header) t.old p.now t.new p.now }
{
    if hears(t, p, k, a, sender, header) {
        wake(t, p, k, a, MESSAGE);
    }
}

// A message to slot a, for which there is room.
pub fn post(t: &mut [u64], p: &mut [u8], k: Caps, a: u64, sender: u64, header: u32, payload: &[u8])
    requires { RoomWith k (λ s. (has_room k s ≡ true) × (length payload.now ≤ PAYLOAD-MOST) × (a < SAFE) × (head s QUEUED ≤ SAFE) × (head s ARRIVED ≤ SAFE)) t.old p.old }
    ensures { Makes k (λ s. post k s a sender header payload.now) t.old p.old t.new p.new }
{
    let d = data_for(t, p, k);
    let e = mail_for(t, p, k);
    fill(t, p, k, d, sender, header, payload);
    enlist(t, p, k, e, a, d);
    stir(t, p, k, a, sender, header);
}
