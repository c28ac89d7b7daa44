// The command `survive`.
ghost use Rattle.std.specs.Prelude.{◌≡◌, Some, IfOk, IfErr, codes};
ghost use Rattle.clap.specs.Words.{app_of, found_of, rows_of};
ghost use Rattle.tx_commands.specs.Commands.{Asks};
ghost use Rattle.tx_commands.specs.Grammar.{survive_words};
ghost use Rattle.tx_commands.specs.inner.Refused.{IsRefused};

use crate::arguments::{DOWN, DOWN_EXCHANGE, RISKS, Syntax};
use crate::command::Command;
use crate::down::{Down, down_asked};
use crate::given::{is_set, text};
use crate::misuse::Misuse;
use clap::ArgMatches;
use std::alloc::{AllocError, Global};

/// `survive PLAN`, with the named risks of a file, if one is named. The flag with them: these alone.
#[derive(Drop)]
pub struct SurviveRequest {
    pub plan: String,
    pub risks: Option<(String, bool)>,
    pub down: Option<Down>,
}

/// `survive NEW --from OLD`: both plans, one beside the other.
#[derive(Drop)]
pub struct CompareRequest {
    pub old: String,
    pub new: String,
    pub risks: Option<(String, bool)>,
    pub down: Option<Down>,
}

const SURVIVE_HELP: &str =
    "Of an exchange that fails, the calls that start there and those for codes at
home there are left out.

Example: telexplan survive own.plan --risks cables

Exit status: 0 after YES, 1 after NO and for a plan that has no grade, 2 for a
refused text and for plans that contradict each other, 3 for a failed read or
write, 4 when out of memory, 64 for refused words";

pub(crate) fn survive_grammar<'a>(alloc: Global) -> Result<clap::Command<'a>, AllocError>
    ensures { IfOk result (λ c. app_of c ≡ survive_words) }
{
    Syntax::over_plan(
        alloc,
        "survive",
        "Say whom each group, exchange and named risk cuts off if it fails",
        SURVIVE_HELP,
    )
    .option("risks", "RISKS", RISKS)
    .flag("risks-only", "Try the named risks alone")
    .option(
        "from",
        "OLD",
        "The plan that is in force: say whether anybody is
worse off by the plan; - is standard input",
    )
    .option("down", "GROUP,..", DOWN)
    .option("down-exchange", "X", DOWN_EXCHANGE)
    .command
}

/// Its words.
pub(crate) fn survive_of(alloc: Global, matches: &ArgMatches<'_>) -> Result<Command, Misuse>
    ensures asked { IfOk result (Asks (codes "survive") (rows_of (found_of matches.now))) }
    ensures refused { IfErr result
        (IsRefused (Some (codes "survive", rows_of (found_of matches.now)))) }
{
    let Some(plan) = text(alloc, matches, "plan")? else {
        return Err(Misuse::Incomplete);
    };
    let only = is_set(matches, "risks-only");
    let old = text(alloc, matches, "from")?;
    let risks = match text(alloc, matches, "risks")? {
        Some(risks) => Some((risks, only)),
        None if only => return Err(Misuse::RisksOnly),
        None => None,
    };
    let down = down_asked(alloc, matches, false)?;
    match old {
        Some(old) => Ok(Command::Compare(CompareRequest {
            old,
            new: plan,
            risks,
            down,
        })),
        None => Ok(Command::Survive(SurviveRequest { plan, risks, down })),
    }
}
