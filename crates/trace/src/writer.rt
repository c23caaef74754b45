// The one writer of records, and the comparison of a record with what it would write.
ghost use Rattle.std.specs.Prelude.{◌≡◌, [], ◌+◌, ◌*◌, ◌≤◌, length};
ghost use Rattle.std.proofs.lemmas.List.Edits.{sets};
ghost use Rattle.trace.specs.Codec.{bytes};
ghost use Rattle.trace.specs.Kind.{number};
ghost use Rattle.trace.specs.Kinds.{kept, noted};
ghost use Rattle.trace.specs.Verdict.{same};
ghost use Rattle.trace.specs.Promises.{Put, Short};

use crate::kind::Kind;
use crate::numbers::{put_words, words_at};
use records::frame::{is_record, put_frame};
use tables::limits::PAYLOAD_MOST;
use tables::payload::copy;

// What is recorded of a payload: all of it, or where it is over 252 bytes none of it.
pub fn kept(payload: &[u8]) -> &[u8]
    ensures { result.now ≡ kept payload.now }
{
    if payload.len() <= PAYLOAD_MOST {
        payload
    } else {
        b""
    }
}

// The record of these numbers and this text, at the front of a slice that has room.
fn put_note(out: &mut [u8], kind: u16, front: &[u64], text: &[u8], back: &[u64])
    requires { Short front.now text.now back.now × (4 + 8 * length front.now + length text.now + 8 * length back.now ≤ length out.old) }
    ensures { out.new ≡ sets out.old 0 (bytes (noted kind front.now text.now back.now)) }
{
    let f = 4 + 8 * front.len();
    let e = f + text.len();
    let size = e + 8 * back.len() - 2;
    put_frame(out, 0, size as u16, kind);
    put_words(out, 4, front);
    copy(out, f, text);
    put_words(out, e, back);
}

// The same: how many bytes it takes; 0 and nothing changed where the slice is too short.
pub fn write(out: &mut [u8], kind: u16, front: &[u64], text: &[u8], back: &[u64]) -> usize
    requires { Short front.now text.now back.now }
    ensures { Put (bytes (noted kind front.now text.now back.now)) out.old result out.new }
{
    let n = 4 + 8 * front.len() + text.len() + 8 * back.len();
    if out.len() < n {
        return 0;
    }
    put_note(out, kind, front, text, back);
    n
}

// The same of a record that has no text.
pub fn write_numbers(out: &mut [u8], kind: u16, front: &[u64], back: &[u64]) -> usize
    requires { Short front.now [] back.now }
    ensures { Put (bytes (noted kind front.now [] back.now)) out.old result out.new }
{
    write(out, kind, front, b"", back)
}

// Is this record the one that the writer writes?
pub fn matches(r: &[u8], kind: u16, front: &[u64], text: &[u8], back: &[u64]) -> bool
    requires { Short front.now text.now back.now }
    ensures { result ≡ same (bytes (noted kind front.now text.now back.now)) r.now }
{
    let f = 4 + 8 * front.len();
    let e = f + text.len();
    let size = e + 8 * back.len() - 2;
    is_record(r, size as u16, kind)
        && words_at(r, 4, front)
        && r[f..].starts_with(text)
        && words_at(r, e, back)
}

// The same by the kind itself, which stands for its number.
impl Kind {
    pub fn write(self, out: &mut [u8], front: &[u64], text: &[u8], back: &[u64]) -> usize
        requires { Short front.now text.now back.now }
        ensures { Put (bytes (noted (number self) front.now text.now back.now)) out.old result out.new }
    {
        write(out, u16::from(self), front, text, back)
    }

    pub fn write_numbers(self, out: &mut [u8], front: &[u64], back: &[u64]) -> usize
        requires { Short front.now [] back.now }
        ensures { Put (bytes (noted (number self) front.now [] back.now)) out.old result out.new }
    {
        write_numbers(out, u16::from(self), front, back)
    }

    pub fn matches(self, r: &[u8], front: &[u64], text: &[u8], back: &[u64]) -> bool
        requires { Short front.now text.now back.now }
        ensures { result ≡ same (bytes (noted (number self) front.now text.now back.now)) r.now }
    {
        matches(r, u16::from(self), front, text, back)
    }
}
