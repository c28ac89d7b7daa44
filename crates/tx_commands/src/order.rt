// The command `order`.
ghost use Rattle.std.specs.Prelude.{◌≡◌, Some, IfOk, IfErr, codes};
ghost use Rattle.clap.specs.Words.{app_of, found_of, rows_of};
ghost use Rattle.tx_commands.specs.Commands.{Asks, AsksForStop};
ghost use Rattle.tx_commands.specs.Grammar.{order_words};
ghost use Rattle.tx_commands.specs.inner.Refused.{IsRefused};

use crate::arguments::{DOWN, DOWN_EXCHANGE, NEW_PLAN, OLD_PLAN, Syntax};
use crate::command::Command;
use crate::down::{Down, down_asked};
use crate::given::{is_given, is_set, limits, number_of, text};
use crate::misuse::Misuse;
use clap::ArgMatches;
use std::alloc::{AllocError, Global};
use tx_plan::Limits;

/// `order OLD NEW --limit L --spare K`: with the number of a stage the plan after it goes into a
/// file, if one is named, and so does the certificate of the stage. From where an order was stopped,
/// the limits and the stage are those of the order from there.
#[derive(Drop)]
pub struct OrderRequest {
    pub old: String,
    pub new: String,
    pub limits: Limits,
    pub stage: Option<u8>,
    pub plan: Option<String>,
    pub cert: Option<String>,
    pub down: Option<Down>,
    /// The text that says what is switched already.
    pub done: Option<String>,
    pub stopped: Option<Stopped>,
}

/// Where an order was stopped: in this stage of the one for these limits, or after it, and whether
/// it is to lead back to OLD.
#[derive(Clone, Copy)]
pub struct Stopped {
    pub stage: u8,
    pub limits: Limits,
    pub back: bool,
}

const ORDER_HELP: &str = "Example: telexplan order own.plan new.plan --limit 1 --spare 1

Exit status: 0 after YES, 1 after NO, 2 for a refused text and for plans that
contradict each other, 3 for a failed read or write, 4 when out of memory, 64
for refused words, and for a stage that the order does not have";

const STAGE: &str = "The stage of which --plan and --cert write, or from
which the order leads on or back: from 0";

/// How many stages an order has at the most.
const MOST_STAGES: u8 = 128;

const DONE: &str = "Lead on from the middle of that stage. What is done:
lines EXCHANGE CODE, between DONE 1 and END; - is
standard input";

pub(crate) fn order_grammar<'a>(alloc: Global) -> Result<clap::Command<'a>, AllocError>
    ensures { IfOk result (λ c. app_of c ≡ order_words) }
{
    Syntax::new(
        alloc,
        "order",
        "Say in which stages a plan can change into another, if it can",
        ORDER_HELP,
    )
    .file("before", "OLD", OLD_PLAN)
    .file("after", "NEW", NEW_PLAN)
    .limits(true)
    .number("stage", "N", STAGE, MOST_STAGES)
    .option(
        "plan",
        "OUT",
        "After YES, write the plan after that stage to this
file",
    )
    .option(
        "cert",
        "CERT",
        "After YES, write a certificate of the plans before
and after that stage to this file",
    )
    .option("done", "DONE", DONE)
    .flag("back", "Lead from there back to OLD")
    .number(
        "spare-now",
        "K",
        "The spare number from there on, if it is not that of
--spare: 0 to 15",
        15,
    )
    .option("down", "GROUP,..", DOWN)
    .option("down-exchange", "X", DOWN_EXCHANGE)
    .command
}

/// Where an order was stopped, if the words say so.
fn stopped_asked(alloc: Global, matches: &ArgMatches<'_>) -> Result<Option<Stopped>, Misuse>
    ensures asked { IfOk result (AsksForStop (rows_of (found_of matches.now))) }
    ensures refused { IfErr result
        (IsRefused (Some (codes "order", rows_of (found_of matches.now)))) }
{
    let back = is_set(matches, "back");
    if !is_given(matches, "done") && !back && !is_given(matches, "spare-now") {
        return Ok(None);
    }
    if !is_given(matches, "stage") {
        return Err(Misuse::StageMissing);
    }
    let stage = number_of(alloc, matches, "stage", MOST_STAGES)?;
    let limits = limits(alloc, matches)?;
    Ok(Some(Stopped {
        stage,
        limits,
        back,
    }))
}

/// Its words. A file is made of a stage that is named.
pub(crate) fn order_of(alloc: Global, matches: &ArgMatches<'_>) -> Result<Command, Misuse>
    ensures asked { IfOk result (Asks (codes "order") (rows_of (found_of matches.now))) }
    ensures refused { IfErr result
        (IsRefused (Some (codes "order", rows_of (found_of matches.now)))) }
{
    let old = text(alloc, matches, "before")?;
    let new = text(alloc, matches, "after")?;
    let plan = text(alloc, matches, "plan")?;
    let cert = text(alloc, matches, "cert")?;
    let made = plan.is_some() || cert.is_some();
    let done = text(alloc, matches, "done")?;
    let stopped = stopped_asked(alloc, matches)?;
    let stage = match stopped {
        Some(_) if made => Some(0),
        Some(_) => None,
        None if is_given(matches, "stage") => {
            Some(number_of(alloc, matches, "stage", MOST_STAGES)?)
        }
        None if made => return Err(Misuse::StageMissing),
        None => None,
    };
    let down = down_asked(alloc, matches, made)?;
    let Limits { limit, spare } = limits(alloc, matches)?;
    let spare = if is_given(matches, "spare-now") {
        number_of(alloc, matches, "spare-now", 15)?
    } else {
        spare
    };
    match (old, new) {
        (Some(old), Some(new)) => Ok(Command::Order(OrderRequest {
            old,
            new,
            limits: Limits { limit, spare },
            stage,
            plan,
            cert,
            down,
            done,
            stopped,
        })),
        _ => Err(Misuse::Incomplete),
    }
}
