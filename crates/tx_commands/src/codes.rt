// The command `codes`.
ghost use Rattle.std.specs.Prelude.{◌≡◌, Some, IfOk, IfErr, codes};
ghost use Rattle.clap.specs.Words.{app_of, found_of, rows_of};
ghost use Rattle.tx_commands.specs.Commands.{Asks};
ghost use Rattle.tx_commands.specs.Grammar.{codes_words};
ghost use Rattle.tx_commands.specs.inner.Refused.{IsRefused};

use crate::arguments::Syntax;
use crate::command::Command;
use crate::given::text;
use crate::misuse::Misuse;
use clap::ArgMatches;
use std::alloc::{AllocError, Global};

/// `codes PLAN`.
#[derive(Drop)]
pub struct CodesRequest {
    pub plan: String,
}

const CODES_HELP: &str = "Example: telexplan codes own.plan

Exit status: 0 where no code begins another, 1 where one does, 2 for a refused
text, 3 for a failed read or write, 4 when out of memory, 64 for refused words";

pub(crate) fn codes_grammar<'a>(alloc: Global) -> Result<clap::Command<'a>, AllocError>
    ensures { IfOk result (λ c. app_of c ≡ codes_words) }
{
    Syntax::over_plan(
        alloc,
        "codes",
        "List the codes of a plan, and two of which one begins the other",
        CODES_HELP,
    )
    .command
}

/// Its words.
pub(crate) fn codes_of(alloc: Global, matches: &ArgMatches<'_>) -> Result<Command, Misuse>
    ensures asked { IfOk result (Asks (codes "codes") (rows_of (found_of matches.now))) }
    ensures refused { IfErr result
        (IsRefused (Some (codes "codes", rows_of (found_of matches.now)))) }
{
    let Some(plan) = text(alloc, matches, "plan")? else {
        return Err(Misuse::Incomplete);
    };
    Ok(Command::Codes(CodesRequest { plan }))
}
