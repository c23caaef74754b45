// Whether a filter of sender, class and tag matches.
ghost use Rattle.std.specs.Prelude.{◌≡◌};
ghost use Rattle.rules.specs.Terms.{wants, fits, awaits};
ghost use Rattle.tables.specs.State.{Room, Reads};

use crate::headers::{class_in, header_at, tag_in};
use tables::Caps;
use tables::columns::{SENDER, WANT_CLASS, WANT_SENDER, WANT_TAG};
use tables::limits::{ANY_CLASS, ANY_SENDER, ANY_TAG};
use tables::words::get;

// Is a wanted number the one that is there, or does it stand for any?
#[tactic(auto, unfolding(rules::specs::Terms::wants))]
fn wants(any: u64, wanted: u64, x: u64) -> bool
    ensures { result ≡ wants any wanted x }
{
    wanted == any || wanted == x
}

// Does a filter of sender, class and tag match?
pub fn fits(
    want_sender: u64,
    want_class: u64,
    want_tag: u64,
    sender: u64,
    class: u64,
    tag: u64,
) -> bool
    ensures { result ≡ fits want_sender want_class want_tag sender class tag }
{
    wants(ANY_SENDER, want_sender, sender)
        && wants(ANY_CLASS, want_class, class)
        && wants(ANY_TAG, want_tag, tag)
}

// Does the filter of slot a match data entry d? Its tag is asked first: where that differs nothing else is read.
pub fn awaited(t: &[u64], p: &[u8], k: Caps, a: u64, d: u64) -> bool
    requires { Room k t.now p.now }
    ensures { Reads k (λ s. awaits s a d) t.now p.now result }
{
    let header = header_at(t, p, k, d);
    wants(ANY_TAG, get(t, p, k, WANT_TAG, a), tag_in(header))
        && wants(
            ANY_SENDER,
            get(t, p, k, WANT_SENDER, a),
            get(t, p, k, SENDER, d),
        )
        && wants(ANY_CLASS, get(t, p, k, WANT_CLASS, a), class_in(header))
}
