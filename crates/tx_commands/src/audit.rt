// The command `audit`.
ghost use Rattle.std.specs.Prelude.{◌≡◌, Some, IfOk, IfErr, codes};
ghost use Rattle.clap.specs.Words.{app_of, found_of, rows_of};
ghost use Rattle.tx_commands.specs.Commands.{Asks};
ghost use Rattle.tx_commands.specs.Grammar.{audit_words};
ghost use Rattle.tx_commands.specs.inner.Refused.{IsRefused};

use crate::arguments::{DOWN, DOWN_EXCHANGE, Syntax};
use crate::command::Command;
use crate::down::{Down, down_asked};
use crate::given::{limits, text};
use crate::misuse::Misuse;
use clap::ArgMatches;
use std::alloc::{AllocError, Global};
use tx_plan::Limits;

/// `audit PLAN --limit L --spare K`: the certificate goes into a file, if one is named, and so does
/// the counter script.
#[derive(Drop)]
pub struct AuditRequest {
    pub plan: String,
    pub limits: Limits,
    pub cert: Option<String>,
    pub counter: Option<String>,
    pub down: Option<Down>,
}

const AUDIT_HELP: &str = "Example: telexplan audit own.plan --limit 1 --spare 1 --cert own.cert

Exit status: 0 after YES, 1 after NO, 2 for a refused text, 3 for a failed read
or write, 4 when out of memory, 64 for refused words";

pub(crate) fn audit_grammar<'a>(alloc: Global) -> Result<clap::Command<'a>, AllocError>
    ensures { IfOk result (λ c. app_of c ≡ audit_words) }
{
    Syntax::over_plan(
        alloc,
        "audit",
        "Say whether a plan is safe: YES, or NO with what is wrong",
        AUDIT_HELP,
    )
    .limits(true)
    .option(
        "cert",
        "CERT",
        "After YES, write the certificate to this file",
    )
    .option(
        "counter",
        "SCRIPT",
        "After NO, write a script to this file that shows the
first finding that has one",
    )
    .option("down", "GROUP,..", DOWN)
    .option("down-exchange", "X", DOWN_EXCHANGE)
    .command
}

/// Its words.
pub(crate) fn audit_of(alloc: Global, matches: &ArgMatches<'_>) -> Result<Command, Misuse>
    ensures asked { IfOk result (Asks (codes "audit") (rows_of (found_of matches.now))) }
    ensures refused { IfErr result
        (IsRefused (Some (codes "audit", rows_of (found_of matches.now)))) }
{
    let Some(plan) = text(alloc, matches, "plan")? else {
        return Err(Misuse::Incomplete);
    };
    let cert = text(alloc, matches, "cert")?;
    let counter = text(alloc, matches, "counter")?;
    let limits = limits(alloc, matches)?;
    let down = down_asked(alloc, matches, cert.is_some() || counter.is_some())?;
    Ok(Command::Audit(AuditRequest {
        plan,
        limits,
        cert,
        counter,
        down,
    }))
}
