// The words and numbers that were given for the arguments of a command.
ghost use Rattle.std.specs.Prelude.{◌≡◌, ◌≤◌, ℕ, List, Some, IfOk, IfErr, option_map, string_bytes};
ghost use Rattle.clap.specs.Words.{first_of, found_of, rows_of};
ghost use Rattle.tx_commands.specs.Commands.{Gives, GivesLimits, is_set, line_of};
ghost use Rattle.tx_commands.specs.Faults.{has};
ghost use Rattle.tx_commands.specs.inner.Refused.{IsRefused};

use crate::misuse::Misuse;
use clap::ArgMatches;
use std::alloc::{AllocError, Global};
use tx_plan::Limits;
use tx_text::number;

/// The word of an id.
pub(crate) fn text(
    alloc: Global,
    matches: &ArgMatches<'_>,
    id: &str,
) -> Result<Option<String>, AllocError>
    ensures { IfOk result (λ word. first_of id.now (rows_of (found_of matches.now))
        ≡ option_map string_bytes word) }
{
    match matches.get_str(id) {
        Some(word) => Ok(Some(String::from_str(alloc, word)?)),
        None => Ok(None),
    }
}

/// The words of an id, with a blank between two.
pub(crate) fn line(
    alloc: Global,
    matches: &ArgMatches<'_>,
    id: &str,
) -> Result<Option<String>, AllocError>
    ensures { IfOk result (λ line. line_of (rows_of (found_of matches.now)) id.now
        ≡ option_map string_bytes line) }
{
    match matches.get_strs(id) {
        Some(words) => Ok(Some(words.join(alloc, " ")?)),
        None => Ok(None),
    }
}

/// Whether a word stands for an id.
pub(crate) fn is_given(matches: &ArgMatches<'_>, id: &str) -> bool
    ensures { result ≡ has (rows_of (found_of matches.now)) id.now }
{
    matches.get_str(id).is_some()
}

/// Whether an option that takes no word was given.
pub(crate) fn is_set(matches: &ArgMatches<'_>, id: &str) -> bool
    ensures { result ≡ is_set (rows_of (found_of matches.now)) id.now }
{
    match matches.get_str(id) {
        Some(word) => word == "true",
        None => false,
    }
}

/// The number of an option, which is spelled as in a text.
pub(crate) fn number_of(
    alloc: Global,
    matches: &ArgMatches<'_>,
    id: &'static str,
    most: u8,
) -> Result<u8, Misuse>
    ensures range { IfOk result (λ n. n ≤ most) }
    ensures given { IfOk result (Gives (rows_of (found_of matches.now)) id.now) }
    ensures refused { IfErr result
        (λ e. (name : List ℕ) → IsRefused (Some (name, rows_of (found_of matches.now))) e) }
{
    let Some(word) = matches.get_str(id) else {
        return Err(Misuse::Incomplete);
    };
    match number(word.as_bytes(), u32::MAX) {
        Some(n) if n <= u32::from(most) => Ok(n as u8),
        _ => Err(Misuse::Number(id, String::from_str(alloc, word)?)),
    }
}

/// The limit and the spare number.
pub(crate) fn limits(alloc: Global, matches: &ArgMatches<'_>) -> Result<Limits, Misuse>
    ensures given { IfOk result (GivesLimits (rows_of (found_of matches.now))) }
    ensures refused { IfErr result
        (λ e. (name : List ℕ) → IsRefused (Some (name, rows_of (found_of matches.now))) e) }
{
    let limit = number_of(alloc, matches, "limit", 62)?;
    let spare = number_of(alloc, matches, "spare", 15)?;
    Ok(Limits { limit, spare })
}
