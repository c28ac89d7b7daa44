// The command `lint`.
ghost use Rattle.std.specs.Prelude.{◌≡◌, Some, IfOk, IfErr, codes};
ghost use Rattle.clap.specs.Words.{app_of, found_of, rows_of};
ghost use Rattle.tx_commands.specs.Commands.{Asks};
ghost use Rattle.tx_commands.specs.Grammar.{lint_words};
ghost use Rattle.tx_commands.specs.inner.Refused.{IsRefused};

use crate::arguments::{RISKS, Syntax};
use crate::command::Command;
use crate::given::text;
use crate::misuse::Misuse;
use clap::ArgMatches;
use std::alloc::{AllocError, Global};

/// `lint PLAN`: the faults or warnings of its text, with the named risks of a file, if one is
/// named.
#[derive(Drop)]
pub struct LintRequest {
    pub plan: String,
    pub risks: Option<String>,
}

const LINT_HELP: &str = "Example: telexplan lint own.plan --risks cables

Exit status: 0 without any line, 1 after warnings, 2 after faults, 3 for a
failed read or write, 4 when out of memory, 64 for refused words";

pub(crate) fn lint_grammar<'a>(alloc: Global) -> Result<clap::Command<'a>, AllocError>
    ensures { IfOk result (λ c. app_of c ≡ lint_words) }
{
    Syntax::over_plan(
        alloc,
        "lint",
        "Report all faults of a plan's text, or warn of likely mistakes",
        LINT_HELP,
    )
    .option("risks", "RISKS", RISKS)
    .command
}

/// Its words.
pub(crate) fn lint_of(alloc: Global, matches: &ArgMatches<'_>) -> Result<Command, Misuse>
    ensures asked { IfOk result (Asks (codes "lint") (rows_of (found_of matches.now))) }
    ensures refused { IfErr result
        (IsRefused (Some (codes "lint", rows_of (found_of matches.now)))) }
{
    let Some(plan) = text(alloc, matches, "plan")? else {
        return Err(Misuse::Incomplete);
    };
    let risks = text(alloc, matches, "risks")?;
    Ok(Command::Lint(LintRequest { plan, risks }))
}
