// What is down while a plan is judged.
ghost use Rattle.std.specs.Prelude.{ℕ, List, Some, IfOk, IfErr};
ghost use Rattle.clap.specs.Words.{found_of, rows_of};
ghost use Rattle.tx_commands.specs.Commands.{AsksForDown, AreOfWholePlan};
ghost use Rattle.tx_commands.specs.inner.Refused.{IsRefused};

use crate::given::text;
use crate::misuse::Misuse;
use clap::ArgMatches;
use std::alloc::Global;

/// What is down: the groups of a word, with a comma between two names, and all groups of an
/// exchange.
#[derive(Drop)]
pub struct Down {
    pub groups: Option<String>,
    pub exchange: Option<String>,
}

/// What is down, if anything is, and then no file is to be made.
pub(crate) fn down_asked(
    alloc: Global,
    matches: &ArgMatches<'_>,
    made: bool,
) -> Result<Option<Down>, Misuse>
    ensures asked { IfOk result (AsksForDown (rows_of (found_of matches.now))) }
    ensures whole { IfOk result (λ down. AreOfWholePlan down made) }
    ensures refused { IfErr result
        (λ e. (name : List ℕ) → IsRefused (Some (name, rows_of (found_of matches.now))) e) }
{
    let groups = text(alloc, matches, "down")?;
    let exchange = text(alloc, matches, "down-exchange")?;
    match (groups, exchange) {
        (None, None) => Ok(None),
        (groups, exchange) if !made => Ok(Some(Down { groups, exchange })),
        _ => Err(Misuse::DownFiles),
    }
}
