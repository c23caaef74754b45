// The call on buses that answers bytes, a read, made as a record asks, and the record compared with the one that the writer writes of it.
ghost use Rattle.std.specs.Prelude.{◌≡◌, ◌≤◌, length};
ghost use Rattle.ledger.specs.Call.Call.{op};
ghost use Rattle.ledger.specs.Call.Op.{read};
ghost use Rattle.rules.specs.Host.{copy_in};
ghost use Rattle.rules.specs.Run.{say_copy};
ghost use Rattle.rules.specs.Story.{Meets};
ghost use Rattle.judge.specs.Replayed.{Judged};

use rules::Copied;
use runtime::host::fg_read;
use tables::limits::PAYLOAD_MOST;
use trace::kind::Kind;

// A read of a bus to a slice of so many bytes: what is copied stands first in the copy. No payload is over 252 bytes, so as many are lent for any more.
fn read_here(t: &mut [u64], p: &mut [u8], bus: u64, room: u64, copy: &mut [u8]) -> Copied
    requires { length copy.old ≡ 252 }
    ensures meets { Meets (op (read bus room)) t.old p.old (say_copy (copy_in result copy.new)) t.new p.new }
    ensures short { result.length ≤ 252 }
{
    let n = room.min(PAYLOAD_MOST as u64) as usize;
    fg_read(t, p, bus, &mut copy[..n])
}

pub fn judge_read(t: &mut [u64], p: &mut [u8], r: &[u8], bus: u64, room: u64) -> bool
    ensures { Judged (read bus room) t.old p.old r.now result t.new p.new }
{
    let mut copy = [0u8; PAYLOAD_MOST];
    let v = read_here(t, p, bus, room, &mut copy);
    let text = &copy[..v.length as usize];
    Kind::Read.matches(r, &[bus, room, v.no, v.length], text, &[])
}
