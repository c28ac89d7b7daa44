// The command `fill`.
ghost use Rattle.std.specs.Prelude.{◌≡◌, Some, IfOk, IfErr, codes};
ghost use Rattle.clap.specs.Words.{app_of, found_of, rows_of};
ghost use Rattle.tx_commands.specs.Commands.{Asks};
ghost use Rattle.tx_commands.specs.Grammar.{fill_words};
ghost use Rattle.tx_commands.specs.inner.Refused.{IsRefused};

use crate::arguments::{DOWN, Syntax};
use crate::command::Command;
use crate::given::text;
use crate::misuse::Misuse;
use clap::ArgMatches;
use std::alloc::{AllocError, Global};

/// `fill PLAN EXCHANGE CODE`: how many calls for the code the exchange can have at once, while these
/// groups are down, if some are named.
#[derive(Drop)]
pub struct FillRequest {
    pub plan: String,
    pub exchange: String,
    pub code: String,
    pub down: Option<String>,
}

const FILL_HELP: &str = "Example: telexplan fill own.plan NORTH 24 --down CENO1,CENO2

Exit status: 0 after the report, 2 for a refused text, 3 for a failed read or
write, 4 when out of memory, 64 for refused words, and for an exchange, a code
or a group that is not in the plan";

pub(crate) fn fill_grammar<'a>(alloc: Global) -> Result<clap::Command<'a>, AllocError>
    ensures { IfOk result (λ c. app_of c ≡ fill_words) }
{
    Syntax::over_plan(
        alloc,
        "fill",
        "Say how many calls for a code an exchange can have at once",
        FILL_HELP,
    )
    .file("exchange", "EXCHANGE", "The exchange where the calls start")
    .file("code", "CODE", "Their destination code")
    .option("down", "GROUP,..", DOWN)
    .command
}

/// Its words.
pub(crate) fn fill_of(alloc: Global, matches: &ArgMatches<'_>) -> Result<Command, Misuse>
    ensures asked { IfOk result (Asks (codes "fill") (rows_of (found_of matches.now))) }
    ensures refused { IfErr result
        (IsRefused (Some (codes "fill", rows_of (found_of matches.now)))) }
{
    let Some(plan) = text(alloc, matches, "plan")? else {
        return Err(Misuse::Incomplete);
    };
    let exchange = text(alloc, matches, "exchange")?;
    let code = text(alloc, matches, "code")?;
    let down = text(alloc, matches, "down")?;
    match (exchange, code) {
        (Some(exchange), Some(code)) => Ok(Command::Fill(FillRequest {
            plan,
            exchange,
            code,
            down,
        })),
        _ => Err(Misuse::Incomplete),
    }
}
