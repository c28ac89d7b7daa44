// The command `check`.
ghost use Rattle.std.specs.Prelude.{◌≡◌, Some, IfOk, IfErr, codes};
ghost use Rattle.clap.specs.Words.{app_of, found_of, rows_of};
ghost use Rattle.tx_commands.specs.Commands.{Asks};
ghost use Rattle.tx_commands.specs.Grammar.{check_words};
ghost use Rattle.tx_commands.specs.inner.Refused.{IsRefused};

use crate::arguments::Syntax;
use crate::command::Command;
use crate::given::{limits, text};
use crate::misuse::Misuse;
use clap::ArgMatches;
use std::alloc::{AllocError, Global};
use tx_plan::Limits;

/// `check PLAN CERT --limit L --spare K`: at most L transits, with K groups to spare.
#[derive(Drop)]
pub struct CheckRequest {
    pub plan: String,
    pub cert: String,
    pub limits: Limits,
}

const CHECK_HELP: &str = "Example: telexplan check own.plan own.cert --limit 1 --spare 1

Exit status: 0 after YES, 1 after NO, 2 for a refused text, 3 for a failed read
or write, 4 when out of memory, 64 for refused words";

pub(crate) fn check_grammar<'a>(alloc: Global) -> Result<clap::Command<'a>, AllocError>
    ensures { IfOk result (λ c. app_of c ≡ check_words) }
{
    Syntax::over_plan(
        alloc,
        "check",
        "Say whether a certificate shows that a plan is safe",
        CHECK_HELP,
    )
    .file(
        "cert",
        "CERT",
        "The certificate: ranks of exchanges for each code; - is standard input",
    )
    .limits(true)
    .command
}

/// Its words.
pub(crate) fn check_of(alloc: Global, matches: &ArgMatches<'_>) -> Result<Command, Misuse>
    ensures asked { IfOk result (Asks (codes "check") (rows_of (found_of matches.now))) }
    ensures refused { IfErr result
        (IsRefused (Some (codes "check", rows_of (found_of matches.now)))) }
{
    let Some(plan) = text(alloc, matches, "plan")? else {
        return Err(Misuse::Incomplete);
    };
    let Some(cert) = text(alloc, matches, "cert")? else {
        return Err(Misuse::Incomplete);
    };
    let limits = limits(alloc, matches)?;
    Ok(Command::Check(CheckRequest { plan, cert, limits }))
}
