// The command `mend`.
ghost use Rattle.std.specs.Prelude.{◌≡◌, Some, IfOk, IfErr, codes};
ghost use Rattle.clap.specs.Words.{app_of, found_of, rows_of};
ghost use Rattle.tx_commands.specs.Commands.{Asks};
ghost use Rattle.tx_commands.specs.Grammar.{mend_words};
ghost use Rattle.tx_commands.specs.inner.Refused.{IsRefused};

use crate::arguments::{DOWN, DOWN_EXCHANGE, PLAN, Syntax};
use crate::command::Command;
use crate::down::{Down, down_asked};
use crate::given::{limits, text};
use crate::misuse::Misuse;
use clap::ArgMatches;
use std::alloc::{AllocError, Global};
use tx_plan::Limits;

/// `mend PLAN --limit L --spare K`: the mended plan goes into a file, if one is named, and so does
/// its certificate.
#[derive(Drop)]
pub struct MendRequest {
    pub plan: String,
    pub limits: Limits,
    pub mended: Option<String>,
    pub cert: Option<String>,
    pub down: Option<Down>,
}

const MEND_HELP: &str = "Example: telexplan mend own.plan --limit 1 --spare 1 --plan new.plan

Exit status: 0 after YES, 1 after NO, 2 for a refused text, 3 for a failed read
or write, 4 when out of memory, 64 for refused words";

pub(crate) fn mend_grammar<'a>(alloc: Global) -> Result<clap::Command<'a>, AllocError>
    ensures { IfOk result (λ c. app_of c ≡ mend_words) }
{
    Syntax::new(
        alloc,
        "mend",
        "Find lists with which a plan is safe, or whom no lists serve",
        MEND_HELP,
    )
    .file("before", "PLAN", PLAN)
    .limits(true)
    .option(
        "plan",
        "OUT",
        "After YES, write the plan with these lists to this
file",
    )
    .option(
        "cert",
        "CERT",
        "After YES, write a certificate of that plan to this
file",
    )
    .option("down", "GROUP,..", DOWN)
    .option("down-exchange", "X", DOWN_EXCHANGE)
    .command
}

/// Its words. The option of the mended plan has the name of a plan, so the first word has another.
pub(crate) fn mend_of(alloc: Global, matches: &ArgMatches<'_>) -> Result<Command, Misuse>
    ensures asked { IfOk result (Asks (codes "mend") (rows_of (found_of matches.now))) }
    ensures refused { IfErr result
        (IsRefused (Some (codes "mend", rows_of (found_of matches.now)))) }
{
    let Some(plan) = text(alloc, matches, "before")? else {
        return Err(Misuse::Incomplete);
    };
    let mended = text(alloc, matches, "plan")?;
    let cert = text(alloc, matches, "cert")?;
    let down = down_asked(alloc, matches, mended.is_some() || cert.is_some())?;
    let limits = limits(alloc, matches)?;
    Ok(Command::Mend(MendRequest {
        plan,
        limits,
        mended,
        cert,
        down,
    }))
}
