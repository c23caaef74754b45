// Whom an actor that ends tells: its partners, and those who watch it.
ghost use Rattle.std.specs.Prelude.{◌≡◌, Some, true, suc, ◌<◌};
ghost use Rattle.records.specs.Header.{packed};
ghost use Rattle.records.specs.Records.{exit_bytes};
ghost use Rattle.tables.specs.Columns.{WATCHED};
ghost use Rattle.tables.specs.State.{at, Room, Of, RoomWith, Makes};
ghost use Rattle.tables.specs.Limits.{MOST-ACTORS, MOST-MONITORS, SAFE};
ghost use Rattle.rules.specs.Actions.{has_room, post};
ghost use Rattle.rules.specs.Calls.{cut_links, cut_monitor, cut_monitors, tell, told};
ghost use Rattle.endings.specs.Asked.{Short};
ghost use Rattle.rules.specs.Good.{Going};
ghost use Rattle.endings.specs.Counted.{Counted, Few, told_of};
ghost use Rattle.endings.specs.Partners.{cut_entry};

use crate::partners::note_partners;
use actions::links::tie;
use actions::messages::post;
use actions::monitors::unwatch;
use actions::room::has_room;
use records::exit::{EXIT_BYTES, put_exit};
use records::header::pack;
use rules::refusals::Notices;
use tables::Caps;
use tables::columns::{MONITOR_AGE, WATCHED, WATCHER};
use tables::limits::{MONITOR_FACTOR, MOST_ACTORS};
use tables::words::get;

// The class of an exit notice.
const EXIT: u32 = 4;

// An actor that ends: its slot, its id, and the reason.
#[derive(Clone, Copy)]
pub struct Leaver {
    pub slot: u64,
    pub id: u64,
    pub reason: u16,
}

impl Leaver {
    // Its exit notice goes to slot b.
    fn send(self, t: &mut [u64], p: &mut [u8], k: Caps, b: u64, monitor: u64)
        requires { RoomWith k (λ s. (has_room k s ≡ true) × Short s × (b < SAFE)) t.old p.old }
        ensures { Makes k (λ s. post k s b self.id (packed 4 1 0) (exit_bytes self.id self.reason monitor)) t.old p.old t.new p.new }
    {
        let mut bytes = [0u8; EXIT_BYTES];
        put_exit(&mut bytes, 0, self.id, self.reason, monitor);
        post(t, p, k, b, self.id, pack(EXIT, 1, 0), &bytes);
    }

    // The same, if there is room; else it is lost.
    fn tell(self, t: &mut [u64], p: &mut [u8], k: Caps, n: Notices, b: u64, monitor: u64) -> Notices
        requires { RoomWith k (λ s. Short s × (b < SAFE) × Few n SAFE) t.old p.old }
        ensures { Counted k (λ s. tell k (told_of n s) b self.id self.reason monitor) t.old p.old result t.new p.new }
    {
        if !has_room(t, p, k) {
            return Notices {
                lost: n.lost + 1,
                ..n
            };
        }
        self.send(t, p, k, b, monitor);
        Notices {
            sent: n.sent + 1,
            ..n
        }
    }

    // ---- links
    // Link e, which is with slot b, ends, and b is told.
    fn cut_link(self, t: &mut [u64], p: &mut [u8], k: Caps, n: Notices, b: u64, e: u8) -> Notices
        requires { RoomWith k (λ s. Short s × (b < MOST-ACTORS) × Few n SAFE) t.old p.old }
        ensures { Counted k (λ s. cut_entry k self.id self.reason b (Some e) (told_of n s)) t.old p.old result t.new p.new }
    {
        tie(t, p, k, e as u64, 0, 0);
        self.tell(t, p, k, n, b, 0)
    }

    // All its links end, by ascending partner slot.
    pub fn cut_links(self, t: &mut [u64], p: &mut [u8], k: Caps) -> Notices
        requires { RoomWith k (Going k self.slot self.id) t.old p.old }
        ensures { Counted k (λ s. cut_links k self.slot self.id self.reason k.actors (told 0 0 s)) t.old p.old result t.new p.new × Few result MOST-ACTORS }
    {
        let mut row = [None; MOST_ACTORS];
        note_partners(t, p, k, self.slot + 1, &mut row);
        let mut n = Notices::default();
        for b in 0..k.actors as u64 {
            if let Some(e) = row[b as usize] {
                n = self.cut_link(t, p, k, n, b, e);
            }
        }
        n
    }

    // ---- monitors
    // The watcher of monitor i is told that the actor ends, and the monitor with it.
    fn cut_eye(self, t: &mut [u64], p: &mut [u8], k: Caps, n: Notices, i: u64) -> Notices
        requires { RoomWith k (λ s. Going k self.slot self.id s × (i < k.monitors) × (at s WATCHED i ≡ suc self.slot) × Few n SAFE) t.old p.old }
        ensures { Counted k (λ s. cut_monitor k self.slot self.id self.reason i (told_of n s)) t.old p.old result t.new p.new }
    {
        let watcher = get(t, p, k, WATCHER, i);
        let age = get(t, p, k, MONITOR_AGE, i);
        unwatch(t, p, k, i);
        self.tell(t, p, k, n, watcher - 1, age * MONITOR_FACTOR + i)
    }

    // All monitors on it end, by ascending monitor slot.
    pub fn cut_monitors(self, t: &mut [u64], p: &mut [u8], k: Caps) -> Notices
        requires { RoomWith k (Going k self.slot self.id) t.old p.old }
        ensures { Counted k (λ s. cut_monitors k self.slot self.id self.reason k.monitors (told 0 0 s)) t.old p.old result t.new p.new × Few result MOST-MONITORS }
    {
        let mut n = Notices::default();
        for i in 0..k.monitors as u64 {
            if get(t, p, k, WATCHED, i) == self.slot + 1 {
                n = self.cut_eye(t, p, k, n, i);
            }
        }
        n
    }
}
