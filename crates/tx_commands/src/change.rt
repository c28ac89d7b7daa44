// The command `change`.
ghost use Rattle.std.specs.Prelude.{◌≡◌, Some, IfOk, IfErr, codes};
ghost use Rattle.clap.specs.Words.{app_of, found_of, rows_of};
ghost use Rattle.tx_commands.specs.Commands.{Asks};
ghost use Rattle.tx_commands.specs.Grammar.{change_words};
ghost use Rattle.tx_commands.specs.inner.Refused.{IsRefused};

use crate::arguments::{DOWN, DOWN_EXCHANGE, NEW_PLAN, OLD_PLAN, Syntax};
use crate::command::Command;
use crate::down::{Down, down_asked};
use crate::given::{limits, text};
use crate::misuse::Misuse;
use clap::ArgMatches;
use std::alloc::{AllocError, Global};
use tx_plan::Limits;

/// `change OLD NEW --limit L --spare K`: the certificate goes into a file, if one is named, and so do
/// the mixture that shows what is wrong and the counter script.
#[derive(Drop)]
pub struct ChangeRequest {
    pub old: String,
    pub new: String,
    pub limits: Limits,
    pub cert: Option<String>,
    pub mixture: Option<String>,
    pub counter: Option<String>,
    pub down: Option<Down>,
}

const CHANGE_HELP: &str = "Example: telexplan change own.plan new.plan --limit 1 --spare 1

Exit status: 0 after YES, 1 after NO, 2 for a refused text and for plans that
contradict each other, 3 for a failed read or write, 4 when out of memory, 64
for refused words";

pub(crate) fn change_grammar<'a>(alloc: Global) -> Result<clap::Command<'a>, AllocError>
    ensures { IfOk result (λ c. app_of c ≡ change_words) }
{
    Syntax::new(
        alloc,
        "change",
        "Say whether a plan is safe while its lists change into others",
        CHANGE_HELP,
    )
    .file("before", "OLD", OLD_PLAN)
    .file("after", "NEW", NEW_PLAN)
    .limits(true)
    .option(
        "cert",
        "CERT",
        "After YES, write a certificate of both plans to this
file",
    )
    .option(
        "mixture",
        "PLAN",
        "After NO, write a plan of old and new lists to this
file that shows the first finding that has a walk",
    )
    .option(
        "counter",
        "SCRIPT",
        "After NO, write a script to this file that shows the
same finding in that plan, if there is one",
    )
    .option("down", "GROUP,..", DOWN)
    .option("down-exchange", "X", DOWN_EXCHANGE)
    .command
}

/// Its words.
pub(crate) fn change_of(alloc: Global, matches: &ArgMatches<'_>) -> Result<Command, Misuse>
    ensures asked { IfOk result (Asks (codes "change") (rows_of (found_of matches.now))) }
    ensures refused { IfErr result
        (IsRefused (Some (codes "change", rows_of (found_of matches.now)))) }
{
    let old = text(alloc, matches, "before")?;
    let new = text(alloc, matches, "after")?;
    let cert = text(alloc, matches, "cert")?;
    let mixture = text(alloc, matches, "mixture")?;
    let counter = text(alloc, matches, "counter")?;
    let made = cert.is_some() || mixture.is_some() || counter.is_some();
    let down = down_asked(alloc, matches, made)?;
    let limits = limits(alloc, matches)?;
    match (old, new) {
        (Some(old), Some(new)) => Ok(Command::Change(ChangeRequest {
            old,
            new,
            limits,
            cert,
            mixture,
            counter,
            down,
        })),
        _ => Err(Misuse::Incomplete),
    }
}
