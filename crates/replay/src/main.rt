// Replays a trace from standard input, whatever its length, in fixed memory, and writes one line: `ok N`, `bad N` or `cut N`.
#![tactic(auto)]

ghost use Rattle.std.specs.Prelude.{true, ◌+◌, ◌≡◌, ◌≤◌, ◌<◌, length, take, IfOk, OnOk, Some};
ghost use Rattle.std.specs.Io.KnownBytes.{Appends, IsAtEnd};
ghost use Rattle.judge.specs.Feeding.{Bench};
ghost use Rattle.replay.specs.Said.{ReadsOn, Tells, end_of, line_of, meant, told};

use judge::feed::{feed, keep};
use std::io::{Read, Write};
use std::{fmt, io};
use tables::limits::WORDS_MOST;

// The longest record has 65,537 bytes, so a piece of this size always holds a whole one.
const PIECE: usize = 131_072;

// More records, and more pieces, than any input has.
const MANY: u64 = 9_000_000_000_000_000_000;

// What is said of a trace: all records are right, and how many there are; the number of one that is not; or that of one inside which the input ends.
#[derive(Clone, Copy)]
enum Verdict {
    Ok(u64),
    Bad(u64),
    Cut(u64),
}

impl fmt::Display for Verdict {
    ghost output = { λ v. Some (told (meant v)) };

    fn fmt<W: fmt::Write>(&self, f: &mut fmt::Formatter<W>) -> fmt::Result {
        match self {
            Verdict::Ok(n) => write!(f, "ok {n}"),
            Verdict::Bad(n) => write!(f, "bad {n}"),
            Verdict::Cut(n) => write!(f, "cut {n}"),
        }
    }
}

// The one line.
fn say<W: Write>(out: &mut W, verdict: Verdict) -> io::Result<()>
    ensures { OnOk result (Appends (W.contents out.old) (W.contents out.new) (line_of (meant verdict))) }
{
    writeln!(out, "{verdict}")
}

// The input has ended after n right records, and so many bytes of the next one are left.
fn ended(left: usize, n: u64) -> Verdict
    ensures { meant result ≡ end_of left n }
{
    if left == 0 {
        Verdict::Ok(n)
    } else {
        Verdict::Cut(n)
    }
}

// As much as there is room for: how many bytes came. What was in hand stays, also where a read fails.
fn read_more<R: Read>(input: &mut R, buf: &mut [u8], have: usize) -> io::Result<usize>
    requires { (have ≤ length buf.old) × (length buf.old ≤ 131072) }
    ensures room { IfOk result (λ n. (have + n ≤ length buf.new) × (have + n ≤ 131072)) }
    ensures bytes { IfOk result (λ n. ReadsOn (R.remaining input.old) (R.remaining input.new) (take have buf.old) (take (have + n) buf.new)) }
    ensures end { IfOk result (λ n. have + n < length buf.old → IsAtEnd (R.remaining input.new)) }
    ensures hand { take have buf.new ≡ take have buf.old }
{
    let mut end = have;
    while end < buf.len() {
        let got = input.read(&mut buf[end..])?;
        if got == 0 {
            break;
        }
        end += got;
    }
    Ok(end - have)
}

// One piece after the other.
fn run<R: Read, W: Write>(
    input: &mut R,
    out: &mut W,
    t: &mut [u64],
    p: &mut [u8],
    buf: &mut [u8],
) -> io::Result<()>
    requires { Bench true t.old p.old × (length buf.old ≤ 131072) }
    ensures { 131072 ≤ length buf.old → OnOk result (Tells (R.remaining input.old) (W.contents out.old) (W.contents out.new)) }
{
    let mut n = 0;
    let mut have = 0;
    for _piece in 0..MANY {
        let got = read_more(input, buf, have)?;
        if got == 0 {
            return say(out, ended(have, n));
        }
        if MANY < n {
            break;
        }
        have += got;
        match feed(t, p, n, &buf[..have]) {
            Ok(fed) => {
                n = fed.count;
                have = keep(buf, fed.used, have);
            }
            Err(wrong) => return say(out, Verdict::Bad(wrong.0)),
        }
    }
    Ok(())
}

fn main(rt: HostRuntime) -> io::Result<()> {
    let mut t = [0u64; WORDS_MOST];
    let mut p = [0u8; 65536];
    let mut buf = [0u8; PIECE];
    run(
        &mut rt.reader(),
        &mut io::writer(&rt),
        &mut t,
        &mut p,
        &mut buf,
    )
}
