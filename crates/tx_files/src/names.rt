// The names in a word, with a comma between two.
ghost use Rattle.std.specs.Prelude.{◌≡◌, Some, option_map};
ghost use Rattle.tx_files.specs.Names.{is_named, name_at};

/// Whether a name is one of those in a word.
pub fn is_named(word: &str, name: &[u8]) -> bool
    ensures { result ≡ is_named name.now word.now }
{
    word.split(',').any(|other| other.as_bytes() == name)
}

/// The name at a place of a word, from 0; no bytes where it has none, or without a word.
pub fn name_at(word: Option<&str>, place: usize) -> &[u8]
    ensures { result.now ≡ name_at (option_map (λ w. w.now) word.entry) place }
{
    match word {
        Some(word) => nth_name(word, place),
        None => b"",
    }
}

fn nth_name(word: &str, place: usize) -> &[u8]
    ensures { result.now ≡ name_at (Some word.now) place }
{
    match word.split(',').nth(place) {
        Some(name) => name.as_bytes(),
        None => b"",
    }
}
