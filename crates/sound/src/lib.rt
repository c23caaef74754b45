// Do two lent buffers hold a sound runtime?
#![tactic(auto)]

ghost use Rattle.std.specs.Prelude.{◌≡◌, ◌≤◌, ◌<◌};
ghost use Rattle.rules.specs.Rule.{both, test, Holds};
ghost use Rattle.rules.specs.Sound.{range_rule, size_rule, fit_rule, caps_rule, head_rule, plain_rules, across_rules, sound_at, sound_rule};
ghost use Rattle.rules.specs.Host.{Tests};
ghost use Rattle.sound.specs.Kinds.{front_rules, bit_rules, box_rules, data_rules, time_rules, bus_rules, value_rules, filter_rules, pair_rules, issued_rules, count_rules, early_rules, body_rules};
ghost use Rattle.sound.specs.Standing.{PLACES, Standing, places};
ghost use Rattle.tables.specs.Columns.{STATE};
ghost use Rattle.tables.specs.State.{Room, RoomWith};

use buses::buses;
use every::{boxes, slots, spares};
use marks::{counted_ok, once_ok};
use messages::datas;
use standing::{FEW_ACTORS, FEW_PLACES, PLACES, stand};
use tables::Caps;
use tables::columns::{
    ACTORS, ARRIVED, BUSES, CLOCK, DATA_FREE, DATAS, ISSUED, LINKS, MAIL_FREE, MAILS, MONITORS,
    QUEUED, RUNNING, STATE, TIMERS,
};
use tables::layout::{bytes_needed, caps_of, words_needed};
use tables::limits::{
    CLOCK_END, MOST_ACTORS, MOST_BUSES, MOST_DATAS, MOST_LINKS, MOST_MAILS, MOST_MONITORS,
    MOST_TIMERS,
};
use tables::words::{column, get};
use ties::{links, monitors, timers};
use values::values;
use words::words_ok;

pub mod buses;
pub mod entries;
pub mod every;
pub mod lists;
pub mod mails;
pub mod marks;
pub mod messages;
pub mod standing;
pub mod ties;
pub mod values;
pub mod words;
pub mod zeros;

// ---- the capacities and the sizes
pub fn ranged(k: Caps) -> bool
    ensures { result ≡ test (range_rule k) }
{
    (((1 <= k.actors) & (k.actors <= MOST_ACTORS)) & ((1 <= k.mails) & (k.mails <= MOST_MAILS)))
        & (((1 <= k.datas) & (k.datas <= MOST_DATAS))
            & ((k.links <= MOST_LINKS)
                & ((k.monitors <= MOST_MONITORS) & (k.timers <= MOST_TIMERS))))
}

fn sized(t: &[u64], p: &[u8], k: Caps) -> bool
    requires { Holds (range_rule k) }
    ensures { Tests k (size_rule k) t.now p.now result }
{
    let words = words_needed(k);
    let bytes = bytes_needed(k);
    (words <= t.len()) & (bytes <= p.len())
}

pub fn suffices(t: &[u64], p: &[u8], k: Caps) -> bool
    ensures { Tests k (fit_rule k) t.now p.now result }
{
    ranged(k) && sized(t, p, k)
}

// ---- the rules that read a word where it stands
fn caps_ok(t: &[u64], p: &[u8], k: Caps) -> bool
    requires { Room k t.now p.now }
    ensures { Tests k (caps_rule k) t.now p.now result }
{
    let actors = get(t, p, k, ACTORS, 0);
    let mails = get(t, p, k, MAILS, 0);
    let datas = get(t, p, k, DATAS, 0);
    let links = get(t, p, k, LINKS, 0);
    let monitors = get(t, p, k, MONITORS, 0);
    let timers = get(t, p, k, TIMERS, 0);
    ((actors == (k.actors as u64)) & ((mails == (k.mails as u64)) & (datas == (k.datas as u64))))
        & ((links == (k.links as u64))
            & ((monitors == (k.monitors as u64)) & (timers == (k.timers as u64))))
}

fn head_ok(t: &[u64], p: &[u8], k: Caps) -> bool
    requires { Room k t.now p.now }
    ensures { Tests k (head_rule k) t.now p.now result }
{
    let clock = get(t, p, k, CLOCK, 0);
    let runner = get(t, p, k, RUNNING, 0);
    let queued = get(t, p, k, QUEUED, 0);
    let arrived = get(t, p, k, ARRIVED, 0);
    let issued = get(t, p, k, ISSUED, 0);
    let buses = get(t, p, k, BUSES, 0);
    ((clock <= CLOCK_END) & (runner <= (k.actors as u64)))
        & (((queued <= (k.actors as u64)) & (arrived <= (k.mails as u64)))
            & ((issued <= (k.datas as u64)) & (buses <= (MOST_BUSES as u64))))
}

fn front_ok(t: &[u64], p: &[u8], k: Caps) -> bool
    requires { Room k t.now p.now }
    ensures { Tests k (front_rules k) t.now p.now result }
{
    let caps = caps_ok(t, p, k);
    let head = head_ok(t, p, k);
    let spare = spares(t, p, k);
    caps & (head & spare)
}

fn all_bits_ok(t: &[u64], p: &[u8], k: Caps) -> bool
    requires { Room k t.now p.now }
    ensures { Tests k (bit_rules k) t.now p.now result }
{
    let mails = words_ok(t, p, k, MAIL_FREE, k.mails);
    let datas = words_ok(t, p, k, DATA_FREE, k.datas);
    mails & datas
}

// The slots and the mailbox entries, with the filters.
fn boxes_ok(t: &[u64], p: &[u8], k: Caps, row: &[u8]) -> bool
    requires { RoomWith k (λ s. Standing (s STATE) row.now) t.now p.now }
    ensures { Tests k (λ s. both (box_rules k s) (filter_rules k s)) t.now p.now result }
{
    let slots = slots(t, p, k);
    let boxes = boxes(t, p, k, row);
    slots & boxes
}

// The data entries and the links, with the pairs.
fn datas_ok(t: &[u64], p: &[u8], k: Caps, row: &[u8]) -> bool
    requires { RoomWith k (λ s. Standing (s STATE) row.now) t.now p.now }
    ensures { Tests k (λ s. both (data_rules k s) (pair_rules k s)) t.now p.now result }
{
    let datas = datas(t, p, k);
    let links = links(t, p, k, row);
    datas & links
}

fn times_ok(t: &[u64], p: &[u8], k: Caps, row: &[u8]) -> bool
    requires { RoomWith k (λ s. Standing (s STATE) row.now) t.now p.now }
    ensures { Tests k (time_rules k) t.now p.now result }
{
    let monitors = monitors(t, p, k, row);
    let timers = timers(t, p, k, row);
    monitors & timers
}

// The buses and who sits on them, and then the values, with the row that has them.
fn buses_ok(t: &[u64], p: &[u8], k: Caps, row: &[u8]) -> bool
    requires { RoomWith k (λ s. Standing (s STATE) row.now × Holds (head_rule k s)) t.now p.now }
    ensures { Tests k (λ s. both (bus_rules s) (both (value_rules k s) (issued_rules k s))) t.now p.now result }
{
    let buses = buses(t, p, k, row);
    let values = values(t, p, k);
    buses & values
}

// All of them but the front, and the late ones which are tested with the entries that they belong to. The row says how the slots stand.
fn body_ok(t: &[u64], p: &[u8], k: Caps, row: &[u8]) -> bool
    requires { RoomWith k (λ s. Standing (s STATE) row.now × Holds (head_rule k s)) t.now p.now }
    ensures { Tests k (body_rules k) t.now p.now result }
{
    let bits = all_bits_ok(t, p, k);
    let boxes = boxes_ok(t, p, k, row);
    let datas = datas_ok(t, p, k, row);
    let times = times_ok(t, p, k, row);
    let buses = buses_ok(t, p, k, row);
    bits & (boxes & (datas & (times & buses)))
}

// The front, and then the others.
fn plain_ok(t: &[u64], p: &[u8], k: Caps, row: &[u8]) -> bool
    requires { RoomWith k (λ s. Standing (s STATE) row.now) t.now p.now }
    ensures { Tests k (early_rules k) t.now p.now result }
{
    front_ok(t, p, k) && body_ok(t, p, k, row)
}

// The same, by a row of n places that is made here: as many as a box of so many actors gets.
fn early_in<const N: usize>(t: &[u64], p: &[u8], k: Caps) -> bool
    requires { Room k t.now p.now × (k.actors < N) × (N ≤ PLACES) × (N ≡ places k.actors) }
    ensures { Tests k (early_rules k) t.now p.now result }
{
    let mut row = [0u8; N];
    stand(column(t, p, k, STATE), &mut row);
    plain_ok(t, p, k, &row)
}

// The same, by a row as long as the box asks for: a short one for few actors.
fn early_ok(t: &[u64], p: &[u8], k: Caps) -> bool
    requires { Room k t.now p.now }
    ensures { Tests k (early_rules k) t.now p.now result }
{
    if k.actors <= FEW_ACTORS {
        return early_in::<FEW_PLACES>(t, p, k);
    }
    early_in::<PLACES>(t, p, k)
}

// ---- the rules that count over a whole column
fn late_ok(t: &[u64], p: &[u8], k: Caps) -> bool
    requires { RoomWith k (λ s. Holds (plain_rules k s)) t.now p.now }
    ensures { Tests k (count_rules k) t.now p.now result }
{
    let once = once_ok(t, p, k);
    let counted = counted_ok(t, p, k);
    once & counted
}

// ---- all of them
fn rules_ok(t: &[u64], p: &[u8], k: Caps) -> bool
    requires { Room k t.now p.now }
    ensures { Tests k (λ s. both (plain_rules k s) (across_rules k s)) t.now p.now result }
{
    early_ok(t, p, k) && late_ok(t, p, k)
}

fn sound_at(t: &[u64], p: &[u8], k: Caps) -> bool
    ensures { Tests k (sound_at k) t.now p.now result }
{
    suffices(t, p, k) && rules_ok(t, p, k)
}

// Do the buffers hold a sound runtime?
pub fn sound(t: &[u64], p: &[u8]) -> bool
    ensures { result ≡ test (sound_rule t.now p.now) }
{
    sound_at(t, p, caps_of(t))
}
