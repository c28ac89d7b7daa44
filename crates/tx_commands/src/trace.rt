// The command `trace`.
ghost use Rattle.std.specs.Prelude.{◌≡◌, Some, IfOk, IfErr, codes};
ghost use Rattle.clap.specs.Words.{app_of, found_of, rows_of};
ghost use Rattle.tx_commands.specs.Commands.{Asks};
ghost use Rattle.tx_commands.specs.Grammar.{trace_words};
ghost use Rattle.tx_commands.specs.inner.Refused.{IsRefused, trace_words_fit};
ghost use Rattle.tx_commands.specs.Faults.{has};

use crate::arguments::{DOWN, Syntax};
use crate::command::Command;
use crate::given::{is_given, text};
use crate::misuse::Misuse;
use clap::ArgMatches;
use std::alloc::{AllocError, Global};

/// `trace PLAN EXCHANGE CODE`: how calls for the code go from the exchange, while these groups are
/// down, if some are named.
#[derive(Drop)]
pub struct TraceRequest {
    pub plan: String,
    pub exchange: String,
    pub code: String,
    pub down: Option<String>,
}

/// `trace PLAN --through NAME`: which calls can pass the exchange or the group of this name, while
/// these groups are down, if some are named.
#[derive(Drop)]
pub struct ThroughRequest {
    pub plan: String,
    pub name: String,
    pub down: Option<String>,
}

/// `trace PLAN --from OLD`: which calls go another way than in an old plan, or, with an exchange and
/// a code, whether those do.
#[derive(Drop)]
pub struct WaysRequest {
    pub plan: String,
    pub old: String,
    pub calls: Option<(String, String)>,
}

const TRACE_HELP: &str = "Example: telexplan trace own.plan NORTH 24 --down CENO1,CENO2

Exit status: 0 after the trace, 2 for a refused text, 3 for a failed read or
write, 4 when out of memory, 64 for refused words, and for an exchange, a code
or a group that is not in the plan";

pub(crate) fn trace_grammar<'a>(alloc: Global) -> Result<clap::Command<'a>, AllocError>
    ensures { IfOk result (λ c. app_of c ≡ trace_words) }
{
    Syntax::over_plan(
        alloc,
        "trace",
        "Show how calls for a code go from an exchange",
        TRACE_HELP,
    )
    .word(
        "exchange",
        "EXCHANGE",
        "The exchange from which the calls go",
    )
    .word("code", "CODE", "Their destination code")
    .option("down", "GROUP,..", DOWN)
    .option(
        "through",
        "NAME",
        "Show which calls can pass this exchange or group;
without an exchange and a code",
    )
    .option(
        "from",
        "OLD",
        "Show which calls go another way than in this plan that
is in force; all, or those from the exchange for the
code; - is standard input",
    )
    .command
}

/// Whether the words go together: an exchange and a code, or `--through`, or `--from` alone or with
/// an exchange and a code; and `--down` does not go with `--from`.
fn has_words_that_fit(matches: &ArgMatches<'_>) -> bool
    ensures { let found = rows_of (found_of matches.now) in result ≡ trace_words_fit
        (has found (codes "exchange")) (has found (codes "code")) (has found (codes "down"))
        (has found (codes "through")) (has found (codes "from")) }
{
    let exchange = is_given(matches, "exchange");
    let code = is_given(matches, "code");
    let through = is_given(matches, "through");
    let from = is_given(matches, "from");
    let calls = exchange && code && !through;
    let no_calls = !(exchange || code) && (through || from) && !(through && from);
    !(is_given(matches, "down") && from) && (calls || no_calls)
}

/// Its words.
pub(crate) fn trace_of(alloc: Global, matches: &ArgMatches<'_>) -> Result<Command, Misuse>
    ensures asked { IfOk result (Asks (codes "trace") (rows_of (found_of matches.now))) }
    ensures refused { IfErr result
        (IsRefused (Some (codes "trace", rows_of (found_of matches.now)))) }
{
    let Some(plan) = text(alloc, matches, "plan")? else {
        return Err(Misuse::Incomplete);
    };
    if !has_words_that_fit(matches) {
        return Err(Misuse::TraceWords);
    }
    let exchange = text(alloc, matches, "exchange")?;
    let code = text(alloc, matches, "code")?;
    let down = text(alloc, matches, "down")?;
    let through = text(alloc, matches, "through")?;
    let from = text(alloc, matches, "from")?;
    match (exchange, code, down, through, from) {
        (Some(exchange), Some(code), down, None, None) => Ok(Command::Trace(TraceRequest {
            plan,
            exchange,
            code,
            down,
        })),
        (None, None, down, Some(name), None) => {
            Ok(Command::TraceThrough(ThroughRequest { plan, name, down }))
        }
        (Some(exchange), Some(code), None, None, Some(old)) => {
            let calls = Some((exchange, code));
            Ok(Command::TraceChanges(WaysRequest { plan, old, calls }))
        }
        (None, None, None, None, Some(old)) => {
            let calls = None;
            Ok(Command::TraceChanges(WaysRequest { plan, old, calls }))
        }
        _ => Err(Misuse::Incomplete),
    }
}
