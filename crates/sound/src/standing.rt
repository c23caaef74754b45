// How each slot stands, in a row of bytes that has the slots one up: 0 free, 1 live, 3 waiting. A word that names a slot is looked up there at once.
ghost use Rattle.std.specs.Prelude.{◌≡◌, ◌<◌, length};
ghost use Rattle.sound.specs.Standing.{Clear, Standing, lives_in, waits_in_of};

use rules::states::{FREE, WAITS};

// A box of so many actors is one of few.
pub const FEW_ACTORS: usize = 64;

// The places of a row of bytes for the slots of a box of few, and for those of any box: a small box does not clear a long row.
pub const FEW_PLACES: usize = 128;

pub const PLACES: usize = 512;

// The row of these states.
pub fn stand(states: &[u64], row: &mut [u8])
    requires { (length states.now < length row.old) × Clear row.old }
    ensures { Standing states.now row.new }
{
    for (a, state) in states.iter().enumerate() {
        row[a + 1] = u8::from(*state != FREE) + 2 * u8::from(*state == WAITS);
    }
}

// Does a word name a live actor?
pub fn lives(row: &[u8], word: u64) -> bool
    ensures { result ≡ lives_in row.now word }
{
    word < row.len() as u64 && row[word as usize] != 0
}

// Does it name a waiting one?
pub fn waits(row: &[u8], word: u64) -> bool
    ensures { result ≡ waits_in_of row.now word }
{
    word < row.len() as u64 && row[word as usize] == 3
}
