// Exit: an actor ends, step by step, and then its slot is given back.
ghost use Rattle.std.specs.Prelude.{◌≡◌, true};
ghost use Rattle.tables.specs.Columns.{STATE};
ghost use Rattle.tables.specs.Limits.{MOST-ACTORS};
ghost use Rattle.tables.specs.State.{Of, Room, RoomWith};
ghost use Rattle.rules.specs.Sound.{Ready};
ghost use Rattle.rules.specs.Terms.{alive};
ghost use Rattle.rules.specs.Answers.{ended_of};
ghost use Rattle.rules.specs.Calls.{depart, exit_entry, ruled};
ghost use Rattle.rules.specs.Host.{Gives};
ghost use Rattle.rules.specs.Good.{Good};
ghost use Rattle.endings.specs.Counted.{Counted, Few};
ghost use Rattle.endings.specs.Stepwise.{Midway, Quiet, Stepped};

use crate::leaving::{clear, drop_monitors, drop_timers, quit_buses, vacate};
use crate::notices::Leaver;
use rules::refusals::{Notices, Refusal};
use tables::Caps;
use tables::columns::{AGE, RUNNING};
use tables::limits::ACTOR_FACTOR;
use tables::words::get;

// The steps of its end, each by its number.
impl Leaver {
    // 0: its hand and its mailbox are emptied.
    fn clear(self, t: &mut [u64], p: &mut [u8], k: Caps)
        requires { RoomWith k (Midway k self.slot self.id 0) t.old p.old }
        ensures { Quiet k self.slot self.id self.reason 0 t.old p.old t.new p.new }
    {
        clear(t, p, k, self.slot);
    }

    // 1: its links end, and its partners are told.
    fn unlink(self, t: &mut [u64], p: &mut [u8], k: Caps) -> Notices
        requires { RoomWith k (Midway k self.slot self.id 1) t.old p.old }
        ensures { Stepped k self.slot self.id self.reason 1 t.old p.old result t.new p.new × Few result MOST-ACTORS }
    {
        self.cut_links(t, p, k)
    }

    // 2: the monitors on it end, and its watchers are told.
    fn unsee(self, t: &mut [u64], p: &mut [u8], k: Caps) -> Notices
        requires { RoomWith k (Midway k self.slot self.id 2) t.old p.old }
        ensures { Stepped k self.slot self.id self.reason 2 t.old p.old result t.new p.new × Few result MOST-ACTORS }
    {
        self.cut_monitors(t, p, k)
    }

    // 3: its own monitors end.
    fn unwatch(self, t: &mut [u64], p: &[u8], k: Caps)
        requires { RoomWith k (Midway k self.slot self.id 3) t.old p.now }
        ensures { Quiet k self.slot self.id self.reason 3 t.old p.now t.new p.now }
    {
        drop_monitors(t, p, k, self.slot);
    }

    // 4: its timers end.
    fn disarm(self, t: &mut [u64], p: &[u8], k: Caps)
        requires { RoomWith k (Midway k self.slot self.id 4) t.old p.now }
        ensures { Quiet k self.slot self.id self.reason 4 t.old p.now t.new p.now }
    {
        drop_timers(t, p, k, self.slot);
    }

    // 5: its subscriptions end.
    fn quit(self, t: &mut [u64], p: &[u8], k: Caps)
        requires { RoomWith k (Midway k self.slot self.id 5) t.old p.now }
        ensures { Quiet k self.slot self.id self.reason 5 t.old p.now t.new p.now }
    {
        quit_buses(t, p, k, self.slot);
    }
}

// The actor of slot a ends, whether it runs, is runnable or waits.
pub fn depart(t: &mut [u64], p: &mut [u8], k: Caps, a: u64, reason: u16) -> Notices
    requires { Room k t.old p.old × Of k (Good k) t.old p.old × Of k (λ s. alive (s STATE) a ≡ true) t.old p.old }
    ensures { Counted k (depart k a reason) t.old p.old result t.new p.new }
{
    let id = get(t, p, k, AGE, a) * ACTOR_FACTOR + a;
    let leaver = Leaver {
        slot: a,
        id,
        reason,
    };
    leaver.clear(t, p, k);
    let links = leaver.unlink(t, p, k);
    let monitors = leaver.unsee(t, p, k);
    leaver.unwatch(t, p, k);
    leaver.disarm(t, p, k);
    leaver.quit(t, p, k);
    vacate(t, p, k, a);
    links + monitors
}

// The running actor ends, if one runs, for a reason that there is.
pub fn exit_in(t: &mut [u64], p: &mut [u8], k: Caps, reason: u64) -> Result<Notices, Refusal>
    requires { Ready k t.old p.old }
    ensures { Gives (ruled (exit_entry reason)) k t.old p.old (ended_of result) t.new p.new }
{
    let runner = get(t, p, k, RUNNING, 0)
        .checked_sub(1)
        .ok_or(Refusal::NotNow)?;
    let Ok(reason) = u16::try_from(reason) else {
        return Err(Refusal::Malformed);
    };
    Ok(depart(t, p, k, runner, reason))
}
