// The command `grade`.
ghost use Rattle.std.specs.Prelude.{◌≡◌, Some, IfOk, IfErr, codes};
ghost use Rattle.clap.specs.Words.{app_of, found_of, rows_of};
ghost use Rattle.tx_commands.specs.Commands.{Asks};
ghost use Rattle.tx_commands.specs.Grammar.{grade_words};
ghost use Rattle.tx_commands.specs.inner.Refused.{IsRefused};

use crate::arguments::{DOWN, DOWN_EXCHANGE, Syntax};
use crate::command::Command;
use crate::down::{Down, down_asked};
use crate::given::text;
use crate::misuse::Misuse;
use clap::ArgMatches;
use std::alloc::{AllocError, Global};

/// `grade PLAN`: with which limits and spare numbers the plan is safe, and each of its codes.
#[derive(Drop)]
pub struct GradeRequest {
    pub plan: String,
    pub down: Option<Down>,
}

const GRADE_HELP: &str = "Example: telexplan grade own.plan

Exit status: 0 for a plan that has a grade, 1 for one that has none, 2 for a
refused text, 3 for a failed read or write, 4 when out of memory, 64 for refused
words";

pub(crate) fn grade_grammar<'a>(alloc: Global) -> Result<clap::Command<'a>, AllocError>
    ensures { IfOk result (λ c. app_of c ≡ grade_words) }
{
    Syntax::over_plan(
        alloc,
        "grade",
        "Say with which transit limits and spare numbers a plan is safe",
        GRADE_HELP,
    )
    .option("down", "GROUP,..", DOWN)
    .option("down-exchange", "X", DOWN_EXCHANGE)
    .command
}

/// Its words.
pub(crate) fn grade_of(alloc: Global, matches: &ArgMatches<'_>) -> Result<Command, Misuse>
    ensures asked { IfOk result (Asks (codes "grade") (rows_of (found_of matches.now))) }
    ensures refused { IfErr result
        (IsRefused (Some (codes "grade", rows_of (found_of matches.now)))) }
{
    let Some(plan) = text(alloc, matches, "plan")? else {
        return Err(Misuse::Incomplete);
    };
    let down = down_asked(alloc, matches, false)?;
    Ok(Command::Grade(GradeRequest { plan, down }))
}
