// The forms of the kinds, as the code has them, and whether a record has the form of its kind.
ghost use Rattle.std.specs.Prelude.{◌≡◌, ◌≤◌, ◌*◌, ◌+◌, length};
ghost use Rattle.trace.specs.Codec.{formed, front_of, text_length};
ghost use Rattle.trace.specs.Kind.{number};
ghost use Rattle.trace.specs.Kinds.{row_of};
ghost use Rattle.judge.specs.Forms.{shape_of};

use records::bytes::{load16, load64};
use trace::kind::Kind;

// The first kind, and how many there are.
pub const FIRST: u16 = Kind::Start as u16;

pub const KINDS: usize = (Kind::Read as u16 - FIRST) as usize + 1;

// The numbers in front of the text, the longest text that is recorded whole, and the numbers after it.
#[derive(Clone, Copy)]
pub struct Form {
    pub fore: usize,
    pub longest: u64,
    pub aft: usize,
}

impl Form {
    fn new(fore: usize, longest: u64, aft: usize) -> Form
        ensures { (result.fore ≡ fore) × (result.longest ≡ longest) × (result.aft ≡ aft) }
    {
        Form { fore, longest, aft }
    }

    // The form of a kind.
    #[tactic(auto, unfolding(trace::specs::Kinds::row_of))]
    pub(crate) fn of(kind: Kind) -> Form
        ensures form { shape_of result ≡ (row_of (number kind)).shape }
        ensures bounds { (result.fore ≤ 8) × (result.longest ≤ 252) × (result.aft ≤ 7) }
    {
        match kind {
            Kind::Start => Form::new(8, 0, 1),
            Kind::Spawn => Form::new(1, 0, 2),
            Kind::Next => Form::new(0, 0, 4),
            Kind::Yield => Form::new(0, 0, 1),
            Kind::Notify => Form::new(3, 252, 1),
            Kind::Receive => Form::new(4, 0, 5),
            Kind::Show => Form::new(1, 252, 0),
            Kind::Shown => Form::new(0, 0, 3),
            Kind::After => Form::new(1, 0, 2),
            Kind::Every => Form::new(1, 0, 2),
            Kind::Cancel => Form::new(1, 0, 1),
            Kind::Link => Form::new(1, 0, 1),
            Kind::Unlink => Form::new(1, 0, 1),
            Kind::Monitor => Form::new(1, 0, 2),
            Kind::Demonitor => Form::new(1, 0, 1),
            Kind::Exit => Form::new(1, 0, 3),
            Kind::Advance => Form::new(1, 0, 2),
            Kind::Report => Form::new(0, 0, 7),
            Kind::Bus => Form::new(4, 0, 2),
            Kind::Publish => Form::new(2, 252, 1),
            Kind::Subscribe => Form::new(1, 0, 1),
            Kind::Unsubscribe => Form::new(1, 0, 1),
            Kind::Read => Form::new(4, 252, 0),
        }
    }

    // Is a record as long as this form asks, and as long as it says?
    pub(crate) fn fits(self, r: &[u8]) -> bool
        requires { (self.fore ≤ 8) × (self.longest ≤ 252) × (self.aft ≤ 7) × (4 ≤ length r.now) }
        ensures { result ≡ formed (shape_of self) r.now }
    {
        let fore = 4 + 8 * self.fore;
        if r.len() < fore {
            return false;
        }
        r.len() == fore + text_length(r, self) + 8 * self.aft
            && load16(r, 0) as usize + 2 == r.len()
    }
}

// The form of the kind of this number; an unknown one has nothing after it.
pub fn form_of(kind: u16) -> Form
    ensures form { shape_of result ≡ (row_of kind).shape }
    ensures bounds { (result.fore ≤ 8) × (result.longest ≤ 252) × (result.aft ≤ 7) }
{
    match Kind::try_from(kind) {
        Ok(kind) => Form::of(kind),
        Err(_) => Form::new(0, 0, 0),
    }
}

// How long the text of a record is.
fn text_length(r: &[u8], f: Form) -> usize
    requires { (f.fore ≤ 8) × (f.longest ≤ 252) × (4 + 8 * f.fore ≤ length r.now) }
    ensures value { result ≡ text_length (shape_of f) (front_of (shape_of f) r.now) }
    ensures upper_bound { result ≤ 252 }
{
    if f.longest == 0 || f.fore == 0 {
        return 0;
    }
    let n = load64(r, 8 * f.fore - 4);
    if n <= f.longest { n as usize } else { 0 }
}

// Is the record as long as its kind asks, and as long as it says?
pub fn length_right(r: &[u8], kind: u16) -> bool
    requires { 4 ≤ length r.now }
    ensures { result ≡ formed (row_of kind).shape r.now }
{
    form_of(kind).fits(r)
}
