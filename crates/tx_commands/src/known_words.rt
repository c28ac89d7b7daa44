// What a line asks for.
ghost use Rattle.std.specs.Prelude.{◌≡◌};
ghost use Rattle.std.specs.List.{list_any};
ghost use Rattle.tx_commands.specs.Entries.{texts, is_asked_by, is_asked, is_known};

use crate::code_table::{Entry, tables};

/// Whether a word asks for an entry: by its code or its name, in capitals or small letters.
fn is_asked_by(word: &str, entry: &Entry) -> bool
    ensures { result ≡ is_asked_by word.now (texts entry.now) }
{
    entry[0].eq_ignore_ascii_case(word) || entry[1].eq_ignore_ascii_case(word)
}

/// Whether a line asks for an entry: by one of its words, which have blanks between them.
pub(crate) fn is_asked(line: &str, entry: &Entry) -> bool
    ensures { result ≡ is_asked line.now (texts entry.now) }
{
    line.split(' ').any(|word| is_asked_by(word, entry))
}

/// Whether a line asks for some entry.
pub(crate) fn is_known(line: &str) -> bool
    ensures { result ≡ is_known line.now }
{
    asks_in_some(&tables(), line)
}

fn asks_in_some(tables: &[&[Entry]], line: &str) -> bool
    ensures { result
        ≡ list_any (λ t. list_any (λ e. is_asked line.now (texts e)) t.now) tables.now }
{
    tables.iter().any(|entries| asks_in(entries, line))
}

fn asks_in(entries: &[Entry], line: &str) -> bool
    ensures { result ≡ list_any (λ e. is_asked line.now (texts e)) entries.now }
{
    entries.iter().any(|entry| is_asked(line, entry))
}
