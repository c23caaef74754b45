// The entry with the earliest time.
ghost use Rattle.std.specs.Prelude.{◌≡◌, ◌<◌, ◌≤◌, length};
ghost use Rattle.tables.specs.Columns.{REST};
ghost use Rattle.tables.specs.State.{size, Room, Reads};
ghost use Rattle.rules.specs.Actions.{earliest};
ghost use Rattle.actions.specs.Times.{earliest_in};

use tables::Caps;
use tables::words::column;

// Of the first n entries, in use by their words and with a time at or before a limit, the one with the earliest time, one up; of equal ones the lowest. 0 where there is none.
fn earliest_in(used: &[u64], time: &[u64], limit: u64, n: usize) -> u64
    requires { (n ≤ length used.now) × (n ≤ length time.now) }
    ensures { result ≡ earliest_in used.now time.now limit n }
{
    let mut best: Option<usize> = None;
    for i in 0..n {
        if used[i] != 0 && time[i] <= limit {
            match best {
                Some(b) if time[b] <= time[i] => {}
                _ => best = Some(i),
            }
        }
    }
    best.map_or(0, |i| i as u64 + 1)
}

// Of the first n entries the one with the earliest time, one up; of equal ones the lowest. 0 where none is due.
pub fn earliest(t: &[u64], p: &[u8], k: Caps, used: usize, time: usize, limit: u64, n: u64) -> u64
    requires { Room k t.now p.now × (used < REST) × (time < REST) × (n ≤ size k used) × (n ≤ size k time) }
    ensures { Reads k (λ s. earliest s used time limit n) t.now p.now result }
{
    earliest_in(
        column(t, p, k, used),
        column(t, p, k, time),
        limit,
        n as usize,
    )
}
