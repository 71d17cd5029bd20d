// The words of a store's index.
ghost use Rattle.std.specs.Prelude.{◌≡◌, get_or};
ghost use Rattle.rules.specs.Store.{flag_word};

// The word at a place as a number, or 0 where the index has no such place.
// 0 and no Option: what a word says is clipped to what is lent, so none asks whether it is there.
pub fn word_at(index: &[u64], at: usize) -> usize
    ensures { result ≡ get_or index.now at 0 }
{
    index.get(at).map_or(0, |word| *word as usize)
}

// The force flag as a word.
pub fn flag_word(force_quotes: bool) -> u64
    ensures { result ≡ flag_word force_quotes }
{
    u64::from(force_quotes)
}
