// The command that the words of the command line ask for.
ghost use Rattle.std.specs.Prelude.{◌≡◌, ◌≢◌, ℕ, false, List, Option, [], Ok, Some, IfOk, IfErr};
ghost use Rattle.clap.specs.Words.{Row, app_of, found_of, rows_of, subcommand_rows_of};
ghost use Rattle.tx_commands.specs.Commands.{Asks, AskFor, IsFoundIn};
ghost use Rattle.tx_commands.specs.Clashes.{reads_input_twice, overwrites};
ghost use Rattle.tx_commands.specs.Grammar.{program_words};
ghost use Rattle.tx_commands.specs.Faults.{IsRefusalIn, IsRefusalOf};
ghost use Rattle.tx_commands.specs.inner.Refused.{IsRefused};

use crate::clashes::refuse_clash;
use crate::command::Command;
use crate::fault::WordsFault;
use crate::grammar::{asked_grammar, grammar};
use crate::misuse::Misuse;
use crate::subcommand::command_of;
use clap::ArgMatches;
use std::alloc::{AllocError, Global};

/// The command that was found in the words. One of which two files clash is refused.
fn found_command(alloc: Global, matches: &ArgMatches<'_>) -> Result<Command, Misuse>
    ensures asked { IfOk result (IsFoundIn (subcommand_rows_of matches.now)) }
    ensures read_once { IfOk result (λ c. reads_input_twice c ≡ false) }
    ensures apart { IfOk result (λ c. overwrites c ≡ false) }
    ensures refused { IfErr result (IsRefused (subcommand_rows_of matches.now)) }
{
    match matches.subcommand() {
        Some((name, matches)) => {
            let command = command_of(alloc, name, matches)?;
            refuse_clash(alloc, &command)?;
            Ok(command)
        }
        None => Err(Misuse::Incomplete),
    }
}

/// A refusal in the form of the library of command lines, with the usage of this command.
fn in_its_form(alloc: Global, name: &str, misuse: &Misuse) -> Result<WordsFault, AllocError>
    ensures { IfOk result
        (λ fault. (command : Option (List ℕ × List Row)) → IsRefusalIn command fault) }
{
    let mut asked = asked_grammar(alloc, name)?;
    let message = misuse.message(alloc)?;
    let e = asked.error(misuse.kind(), message.as_str())?;
    Ok(WordsFault::of_clap(e))
}

/// Why the words of the command of this name are refused.
fn words_fault(alloc: Global, name: &str, misuse: Misuse) -> Result<WordsFault, AllocError>
    ensures { IfOk result (λ fault. (command : Option (List ℕ × List Row))
        → IsRefused command misuse → IsRefusalIn command fault) }
{
    match misuse {
        Misuse::Together => Ok(WordsFault::Together),
        Misuse::NoMemory => Ok(WordsFault::NoMemory),
        misuse => in_its_form(alloc, name, &misuse),
    }
}

/// The command that is in the words, which are not none, by the grammar of the program.
fn command_in<'a>(
    alloc: Global,
    grammar: &mut clap::Command<'a>,
    words: &'a [&str],
) -> Result<Command, WordsFault>
    requires { app_of grammar.old ≡ program_words }
    ensures asked { IfOk result (AskFor words.now) }
    ensures read_once { IfOk result (λ c. reads_input_twice c ≡ false) }
    ensures apart { IfOk result (λ c. overwrites c ≡ false) }
    ensures refused { IfErr result (IsRefusalOf words.now) }
{
    let matches = match grammar.try_get_matches_from_mut(words) {
        Ok(matches) => matches,
        Err(e) => return Err(WordsFault::of_clap(e)),
    };
    let misuse = match found_command(alloc, &matches) {
        Ok(command) => return Ok(command),
        Err(misuse) => misuse,
    };
    let name = matches.subcommand_name().unwrap_or("");
    Err(words_fault(alloc, name, misuse)?)
}

/// Reads the words after the program's name. `Err` is refused words, a request for help or for the
/// version, or lack of memory.
pub fn read_command(alloc: Global, words: &[&str]) -> Result<Command, WordsFault>
    ensures pipe { words.now ≡ [] → result ≡ Ok Command.Pipe }
    ensures asked { IfOk result (λ c. words.now ≢ [] → AskFor words.now c) }
    ensures read_once { IfOk result (λ c. reads_input_twice c ≡ false) }
    ensures apart { IfOk result (λ c. overwrites c ≡ false) }
    ensures refused { IfErr result (IsRefusalOf words.now) }
{
    if words.is_empty() {
        return Ok(Command::Pipe);
    }
    let mut grammar = grammar(alloc)?;
    command_in(alloc, &mut grammar, words)
}
