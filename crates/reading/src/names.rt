// Words that name an entry or a slot one up, so that 0 names none.
ghost use Rattle.std.specs.Prelude.{◌≡◌, ◌-◌};

// One less, and 0 of 0: the slot or the entry that a word names.
pub fn named(word: u64) -> u64
    ensures { result ≡ word - 1 }
{
    word.saturating_sub(1)
}
