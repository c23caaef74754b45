// Receive.
ghost use Rattle.std.specs.Prelude.{◌≡◌, ℕ, ◌<◌, ◌≤◌, IfSome};
ghost use Rattle.tables.specs.Columns.{ARRIVED, CLOCK};
ghost use Rattle.tables.specs.Limits.{CLOCK-END, LONGEST-WAIT, SAFE};
ghost use Rattle.tables.specs.State.{head, Room, RoomWith, Reads, Makes, Does};
ghost use Rattle.rules.specs.Sound.{Ready};
ghost use Rattle.rules.specs.Terms.{legal};
ghost use Rattle.rules.specs.Answers.{received_of};
ghost use Rattle.rules.specs.Calls.{await, bad_wait, data_of, deadline_at, hand_over, receive_bare, receive_entry, received, ruled};
ghost use Rattle.rules.specs.Host.{Gives};
ghost use Rattle.rules.specs.declared.refusals.Refusal.TheVariants.{Malformed};
ghost use Rattle.calls.specs.Parts.{unless, wait_number, wait_of};

use crate::ids::running;
use actions::messages::{delist, let_go};
use actions::queue::{data_of, first_match};
use actions::running::halt;
use reading::headers::{class_in, header_at, tag_in};
use rules::refusals::{Message, Refusal};
use rules::states::WAITS;
use tables::Caps;
use tables::columns::{
    ARRIVED, CLOCK, DEADLINE, HAND, LENGTH, SENDER, STATE, WANT_CLASS, WANT_SENDER, WANT_TAG,
};
use tables::limits::{ANY_CLASS, ANY_TAG, LONGEST_WAIT};
use tables::words::{get, put};

// ---- what is asked
// Which messages are asked for: a sender, a class and a tag, each of which may stand for any.
#[derive(Clone, Copy)]
pub struct Wanted {
    pub sender: u64,
    pub class: u64,
    pub tag: u64,
}

// Can a filter have this class and this tag? It can have any sender.
fn legal(class: u64, tag: u64) -> bool
    ensures { result ≡ legal class tag }
{
    (class <= 4 || class == ANY_CLASS) && tag <= ANY_TAG
}

// How many milliseconds a number says to wait: none for -1, which is without end. Malformed: below -1, or longer than a day.
fn wait_of(wait: i64) -> Result<Option<u64>, Refusal>
    ensures { result ≡ unless (bad_wait wait) Malformed (wait_of wait) }
{
    if wait < 0 {
        if wait != -1 {
            return Err(Refusal::Malformed);
        }
        return Ok(None);
    }
    if LONGEST_WAIT < wait {
        return Err(Refusal::Malformed);
    }
    Ok(Some(wait as u64))
}

// When a wait that begins now ends; 0 for one without end.
fn deadline_at(clock: u64, wait: Option<u64>) -> u64
    requires { (clock ≤ CLOCK-END) × IfSome wait (λ n. n ≤ LONGEST-WAIT) }
    ensures { result ≡ deadline_at clock (wait_number wait) }
{
    match wait {
        Some(millis) => clock + 1000 * millis,
        None => 0,
    }
}

// ---- what is done
// The message of data entry d.
fn message(t: &[u64], p: &[u8], k: Caps, d: u64) -> Message
    requires { Room k t.now p.now }
    ensures { Reads k (λ s. received s d) t.now p.now (received_of (Ok result)) }
{
    let header = header_at(t, p, k, d);
    Message {
        sender: get(t, p, k, SENDER, d),
        class: class_in(header),
        tag: tag_in(header),
        length: get(t, p, k, LENGTH, d),
    }
}

// The j-th arrival goes from its mailbox to the hand of slot a.
fn hand_over(t: &mut [u64], p: &[u8], k: Caps, a: u64, j: u64) -> Message
    requires { RoomWith k (λ s. (j < head s ARRIVED) × (head s ARRIVED ≤ k.mails) × (data_of s j < SAFE)) t.old p.now }
    ensures { Does k (λ s. received s (data_of s j)) (λ s. hand_over s a j) t.old p.now (received_of (Ok result)) t.new p.now }
{
    let d = data_of(t, p, k, j);
    let answer = message(t, p, k, d);
    delist(t, p, k, j);
    put(t, p, k, HAND, a, d + 1);
    answer
}

// The running actor, of slot a, waits.
fn await_in(t: &mut [u64], p: &[u8], k: Caps, a: u64, wanted: Wanted, deadline: u64)
    requires { Room k t.old p.now }
    ensures { Makes k (λ s. await s a wanted.sender wanted.class wanted.tag deadline) t.old p.now t.new p.now }
{
    halt(t, p, k);
    put(t, p, k, STATE, a, WAITS);
    put(t, p, k, WANT_SENDER, a, wanted.sender);
    put(t, p, k, WANT_CLASS, a, wanted.class);
    put(t, p, k, WANT_TAG, a, wanted.tag);
    put(t, p, k, DEADLINE, a, deadline);
}

// The first match for slot a, whose hand is empty. Nothing: there is none, and it does not wait; waiting: there is none, and it waits.
fn receive_bare(
    t: &mut [u64],
    p: &[u8],
    k: Caps,
    wanted: Wanted,
    wait: Option<u64>,
    a: u64,
) -> Result<Message, Refusal>
    requires { RoomWith k (λ s. (a < SAFE) × (head s CLOCK ≤ CLOCK-END) × (head s ARRIVED ≤ k.mails) × ((j : ℕ) → data_of s j < SAFE)) t.old p.now × IfSome wait (λ n. n ≤ LONGEST-WAIT) }
    ensures { Gives (λ _. receive_bare wanted.sender wanted.class wanted.tag (wait_number wait) a) k t.old p.now (received_of result) t.new p.now }
{
    let j = first_match(t, p, k, a, wanted.sender, wanted.class, wanted.tag);
    if j < get(t, p, k, ARRIVED, 0) {
        return Ok(hand_over(t, p, k, a, j));
    }
    if wait == Some(0) {
        return Err(Refusal::Nothing);
    }
    let deadline = deadline_at(get(t, p, k, CLOCK, 0), wait);
    await_in(t, p, k, a, wanted, deadline);
    Err(Refusal::Waiting)
}

// The running actor takes a message.
// Not now: nobody runs; malformed: the filter or the wait is bad; nothing: there is none; waiting: there is none, and it waits.
pub fn receive_in(
    t: &mut [u64],
    p: &mut [u8],
    k: Caps,
    wanted: Wanted,
    wait: i64,
) -> Result<Message, Refusal>
    requires { Ready k t.old p.old }
    ensures { Gives (ruled (receive_entry wanted.sender wanted.class wanted.tag wait)) k t.old p.old (received_of result) t.new p.new }
{
    let me = running(t, p, k)?;
    let wait = wait_of(wait)?;
    if !legal(wanted.class, wanted.tag) {
        return Err(Refusal::Malformed);
    }
    let_go(t, p, k, me - 1);
    receive_bare(t, p, k, wanted, wait, me - 1)
}
