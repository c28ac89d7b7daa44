// The command `page`.
ghost use Rattle.std.specs.Prelude.{◌≡◌, Some, IfOk, IfErr, codes};
ghost use Rattle.clap.specs.Words.{app_of, found_of, rows_of};
ghost use Rattle.tx_commands.specs.Commands.{Asks};
ghost use Rattle.tx_commands.specs.Grammar.{page_words};
ghost use Rattle.tx_commands.specs.inner.Refused.{IsRefused};

use crate::arguments::{DOWN, DOWN_EXCHANGE, RISKS, Syntax};
use crate::command::Command;
use crate::down::{Down, down_asked};
use crate::given::{is_set, limits, text};
use crate::misuse::Misuse;
use clap::ArgMatches;
use std::alloc::{AllocError, Global};
use tx_plan::Limits;

/// `page PLAN --limit L --spare K`: a page about the plan, with the named risks of a file, if one is
/// named, with the change from an old plan, if one is named, and with pictures of the lists for all
/// codes, or for those of which the figures are given, if either is asked for. It may go into a
/// file.
#[derive(Drop)]
pub struct PageRequest {
    pub plan: String,
    pub limits: Limits,
    pub risks: Option<String>,
    pub old: Option<String>,
    pub code: Option<String>,
    pub all_codes: bool,
    pub by_exchange: bool,
    pub html: Option<String>,
    pub down: Option<Down>,
    /// When it is asked, in seconds since 1970. No word says so.
    pub moment: Option<u64>,
}

const PAGE_HELP: &str = "The page is one file, which needs no other and fetches nothing. It has the
verdict, what is wrong, the stages of a change, the grade, outages, the lists of
codes as pictures, and the network. Without --code and --all-codes these are the
codes with a finding and those that the change touches.

Example: telexplan page own.plan --limit 1 --spare 1 --html own.html

Exit status: 0 after YES, 1 after NO, 2 for a refused text, 3 for a failed read
or write, 4 when out of memory, 64 for refused words, and for a code that the
plan does not have";

pub(crate) fn page_grammar<'a>(alloc: Global) -> Result<clap::Command<'a>, AllocError>
    ensures { IfOk result (λ c. app_of c ≡ page_words) }
{
    Syntax::over_plan(
        alloc,
        "page",
        "Write a page of HTML about a plan, for those who decide on it",
        PAGE_HELP,
    )
    .limits(true)
    .option("risks", "RISKS", RISKS)
    .option(
        "from",
        "OLD",
        "The plan that is in force: show in which stages its
lists change into those of the plan; - is standard
input",
    )
    .option(
        "code",
        "CODES",
        "Show the lists of these codes alone, by their
figures, with a comma between two",
    )
    .flag("all-codes", "Show the lists of each code")
    .flag(
        "by-exchange",
        "With --from, show the work at each exchange too",
    )
    .option("html", "OUT", "Write the page to this file")
    .option("down", "GROUP,..", DOWN)
    .option("down-exchange", "X", DOWN_EXCHANGE)
    .command
}

/// Its words.
pub(crate) fn page_of(alloc: Global, matches: &ArgMatches<'_>) -> Result<Command, Misuse>
    ensures asked { IfOk result (Asks (codes "page") (rows_of (found_of matches.now))) }
    ensures refused { IfErr result
        (IsRefused (Some (codes "page", rows_of (found_of matches.now)))) }
{
    let Some(plan) = text(alloc, matches, "plan")? else {
        return Err(Misuse::Incomplete);
    };
    let risks = text(alloc, matches, "risks")?;
    let old = text(alloc, matches, "from")?;
    let code = text(alloc, matches, "code")?;
    let all_codes = is_set(matches, "all-codes");
    let by_exchange = is_set(matches, "by-exchange");
    let html = text(alloc, matches, "html")?;
    let down = down_asked(alloc, matches, false)?;
    let limits = limits(alloc, matches)?;
    Ok(Command::Page(PageRequest {
        plan,
        limits,
        risks,
        old,
        code,
        all_codes,
        by_exchange,
        html,
        down,
        moment: None,
    }))
}
