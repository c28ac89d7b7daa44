// The command `run`.
ghost use Rattle.std.specs.Prelude.{◌≡◌, Some, IfOk, IfErr, codes};
ghost use Rattle.clap.specs.Words.{app_of, found_of, rows_of};
ghost use Rattle.tx_commands.specs.Commands.{Asks};
ghost use Rattle.tx_commands.specs.Grammar.{run_words};
ghost use Rattle.tx_commands.specs.inner.Refused.{IsRefused};

use crate::arguments::Syntax;
use crate::command::Command;
use crate::given::{is_given, is_set, limits, text};
use crate::misuse::Misuse;
use clap::ArgMatches;
use std::alloc::{AllocError, Global};
use tx_plan::Limits;

/// `run PLAN SCRIPT`, after a Yes to a certificate if there is one, with its limits.
#[derive(Drop)]
pub struct RunRequest {
    pub plan: String,
    pub script: String,
    pub checked: Option<(String, Limits)>,
}

/// A run where more is asked for: a status that shows whether an event was refused, the line of each
/// event before its reply, or a summary.
#[derive(Drop)]
pub struct TellingRequest {
    pub run: RunRequest,
    pub strict: bool,
    pub echo: bool,
    pub summary: bool,
}

const RUN_HELP: &str = "Example: telexplan run own.plan own.script

Exit status: 0 after the run, 1 after a NO to the certificate (with --strict:
after a refused event too), 2 for a refused text, 3 for a failed read or write,
4 when out of memory, 64 for refused words";

pub(crate) fn run_grammar<'a>(alloc: Global) -> Result<clap::Command<'a>, AllocError>
    ensures { IfOk result (λ c. app_of c ≡ run_words) }
{
    Syntax::over_plan(
        alloc,
        "run",
        "Run a script of events over a plan: print replies and tickets",
        RUN_HELP,
    )
    .file(
        "script",
        "SCRIPT",
        "The script: events, one a line, between SCRIPT 1 and END;
- is standard input",
    )
    .option(
        "cert",
        "CERT",
        "Run only if this certificate shows that the plan is safe,
else print the verdict; goes with --limit and --spare",
    )
    .limits(false)
    .flag("strict", "End with status 1 if an event was refused")
    .flag("echo", "Print each event with its number before its reply")
    .flag(
        "summary",
        "Print at the end how calls ended, and the most circuits
of each group that were taken at once",
    )
    .command
}

/// Its words.
pub(crate) fn run_of(alloc: Global, matches: &ArgMatches<'_>) -> Result<Command, Misuse>
    ensures asked { IfOk result (Asks (codes "run") (rows_of (found_of matches.now))) }
    ensures refused { IfErr result
        (IsRefused (Some (codes "run", rows_of (found_of matches.now)))) }
{
    let Some(plan) = text(alloc, matches, "plan")? else {
        return Err(Misuse::Incomplete);
    };
    let Some(script) = text(alloc, matches, "script")? else {
        return Err(Misuse::Incomplete);
    };
    let cert = text(alloc, matches, "cert")?;
    let checked = match (cert, is_given(matches, "limit"), is_given(matches, "spare")) {
        (None, false, false) => None,
        (Some(cert), true, true) => Some((cert, limits(alloc, matches)?)),
        _ => return Err(Misuse::Together),
    };
    let strict = is_set(matches, "strict");
    let echo = is_set(matches, "echo");
    let summary = is_set(matches, "summary");
    let run = RunRequest {
        plan,
        script,
        checked,
    };
    if strict || echo || summary {
        Ok(Command::RunTelling(TellingRequest {
            run,
            strict,
            echo,
            summary,
        }))
    } else {
        Ok(Command::Run(run))
    }
}
