// The judge of a record for C (include/foamgangway.h): the export is the library's function, and promises what that does.
#![tactic(auto)]

ghost use Rattle.trace.specs.Kinds.{asked};
ghost use Rattle.judge.specs.Replayed.{Replayed, is_first};

use judge::step;

// Record n of a trace, the first of which is 0: is it right? Its call is made on the two buffers, unless it is not a record, or it is the first and no start.
#[unsafe(no_mangle)]
pub extern "C" fn fg_replay(t: &mut [u64], p: &mut [u8], n: u64, r: &[u8]) -> bool
    ensures { Replayed (asked r.now) (is_first n) t.old p.old r.now result t.new p.new }
{
    step::fg_replay(t, p, n, r)
}
