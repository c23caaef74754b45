// Start: the buffers hold a fresh runtime.
ghost use Rattle.std.specs.Prelude.{◌≡◌, ◌≤◌, ◌<◌, length, replicate};
ghost use Rattle.std.proofs.lemmas.List.Edits.{sets};
ghost use Rattle.ledger.specs.Call.Answer.{plain};
ghost use Rattle.ledger.specs.Call.Call.{start};
ghost use Rattle.tables.specs.Columns.{REST};
ghost use Rattle.tables.specs.Sizes.{BIT-WORDS};
ghost use Rattle.tables.specs.State.{Room, Makes};
ghost use Rattle.rules.specs.Host.{ones, zeroed, stated, freed, fresh};
ghost use Rattle.rules.specs.Story.{Meets};

use pools::bits::WORD_BITS;
use rules::refusals::Refusal;
use sound::suffices;
use tables::Caps;
use tables::columns::{ACTORS, DATA_FREE, DATAS, LINKS, MAIL_FREE, MAILS, MONITORS, TIMERS};
use tables::layout::{bytes_needed, words_needed};
use tables::payload::zero;
use tables::sizes::BIT_WORDS;
use tables::words::put;

// Every needed word and byte is 0.
fn clear(t: &mut [u64], p: &mut [u8], k: Caps)
    requires { Room k t.old p.old }
    ensures { Makes k (zeroed k) t.old p.old t.new p.new }
{
    t[..words_needed(k)].fill(0);
    zero(p, 0, bytes_needed(k));
}

// The head states the capacities.
fn state_caps(t: &mut [u64], p: &[u8], k: Caps)
    requires { Room k t.old p.now }
    ensures { Makes k (stated k) t.old p.now t.new p.now }
{
    put(t, p, k, ACTORS, 0, k.actors as u64);
    put(t, p, k, MAILS, 0, k.mails as u64);
    put(t, p, k, DATAS, 0, k.datas as u64);
    put(t, p, k, LINKS, 0, k.links as u64);
    put(t, p, k, MONITORS, 0, k.monitors as u64);
    put(t, p, k, TIMERS, 0, k.timers as u64);
}

// Word j of the free bits of n entries, all free.
fn ones_at(n: usize, j: usize) -> u64
    requires { j < BIT-WORDS }
    ensures { result ≡ ones n j }
{
    let m = n.saturating_sub(WORD_BITS * j);
    if WORD_BITS <= m {
        return u64::MAX;
    }
    (1 << m) - 1
}

// All n entries of the free bits in column c are free.
fn free_all(t: &mut [u64], p: &[u8], k: Caps, c: usize, n: usize)
    requires { Room k t.old p.now × (c < REST) }
    ensures { Makes k (freed c n) t.old p.now t.new p.now }
{
    for j in 0..BIT_WORDS {
        put(t, p, k, c, j as u64, ones_at(n, j));
    }
}

// A fresh runtime.
pub fn begin(t: &mut [u64], p: &mut [u8], k: Caps)
    requires { Room k t.old p.old }
    ensures { Makes k (fresh k) t.old p.old t.new p.new }
{
    clear(t, p, k);
    state_caps(t, p, k);
    free_all(t, p, k, MAIL_FREE, k.mails);
    free_all(t, p, k, DATA_FREE, k.datas);
}

// A fresh runtime of these capacities in the two buffers, whatever they held. 1: capacities out of range, or a buffer too short.
pub fn fg_start(
    t: &mut [u64],
    p: &mut [u8],
    actors: u64,
    mailboxes: u64,
    data_entries: u64,
    links: u64,
    monitors: u64,
    timers: u64,
) -> u64
    ensures { Meets (start (record { actors = actors; mails = mailboxes; datas = data_entries; links = links; monitors = monitors; timers = timers })) t.old p.old (plain result) t.new p.new }
{
    let k = Caps {
        actors: actors as usize,
        mails: mailboxes as usize,
        datas: data_entries as usize,
        links: links as usize,
        monitors: monitors as usize,
        timers: timers as usize,
    };
    if !suffices(t, p, k) {
        return Refusal::Malformed.into();
    }
    begin(t, p, k);
    0
}
