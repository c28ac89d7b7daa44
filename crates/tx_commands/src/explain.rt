// The command `explain`.
ghost use Rattle.std.specs.Prelude.{◌≡◌, Some, IfOk, IfErr, codes};
ghost use Rattle.clap.specs.Words.{app_of, found_of, rows_of};
ghost use Rattle.tx_commands.specs.Commands.{Asks};
ghost use Rattle.tx_commands.specs.Grammar.{explain_words};
ghost use Rattle.tx_commands.specs.inner.Refused.{IsRefused};

use crate::arguments::Syntax;
use crate::command::Command;
use crate::given::line;
use crate::known_words::is_known;
use crate::misuse::Misuse;
use clap::ArgMatches;
use std::alloc::{AllocError, Global};

/// `explain [WORD]..`: what the codes, names and words of a line mean, or all codes.
#[derive(Drop)]
pub struct ExplainRequest {
    pub line: Option<String>,
}

const EXPLAIN_HELP: &str = "Example: telexplan explain F2 LOOP 24 VIA NORTH

Exit status: 0 where a word is explained and without words, 3 for a failed
write, 4 when out of memory, 64 for refused words";

pub(crate) fn explain_grammar<'a>(alloc: Global) -> Result<clap::Command<'a>, AllocError>
    ensures { IfOk result (λ c. app_of c ≡ explain_words) }
{
    Syntax::new(
        alloc,
        "explain",
        "Say what printed codes and words mean; or list all of them",
        EXPLAIN_HELP,
    )
    .words(
        "word",
        "WORD",
        "A code, a name or a word that was printed, as P11, NC,
Overlap or CUT, or a whole line of a report",
    )
    .command
}

/// Its words, with a blank between two. A line without any code, name or word of the table is refused.
pub(crate) fn explain_of(alloc: Global, matches: &ArgMatches<'_>) -> Result<Command, Misuse>
    ensures asked { IfOk result (Asks (codes "explain") (rows_of (found_of matches.now))) }
    ensures refused { IfErr result
        (IsRefused (Some (codes "explain", rows_of (found_of matches.now)))) }
{
    let Some(line) = line(alloc, matches, "word")? else {
        return Ok(Command::Explain(ExplainRequest { line: None }));
    };
    if is_known(line.as_str()) {
        Ok(Command::Explain(ExplainRequest { line: Some(line) }))
    } else {
        Err(Misuse::NoSuchCode(line))
    }
}
