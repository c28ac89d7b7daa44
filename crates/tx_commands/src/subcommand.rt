// The command that the words of a subcommand ask for.
ghost use Rattle.std.specs.Prelude.{Some, IfOk, IfErr};
ghost use Rattle.clap.specs.Words.{found_of, rows_of};
ghost use Rattle.tx_commands.specs.Commands.{Asks};
ghost use Rattle.tx_commands.specs.inner.Refused.{IsRefused};

use crate::audit::audit_of;
use crate::change::change_of;
use crate::check::check_of;
use crate::codes::codes_of;
use crate::command::Command;
use crate::explain::explain_of;
use crate::fill::fill_of;
use crate::grade::grade_of;
use crate::lint::lint_of;
use crate::mend::mend_of;
use crate::misuse::Misuse;
use crate::order::order_of;
use crate::page::page_of;
use crate::run::run_of;
use crate::survive::survive_of;
use crate::trace::trace_of;
use clap::ArgMatches;
use std::alloc::Global;

/// The command of a subcommand's words.
pub(crate) fn command_of(
    alloc: Global,
    name: &str,
    matches: &ArgMatches<'_>,
) -> Result<Command, Misuse>
    ensures asked { IfOk result (Asks name.now (rows_of (found_of matches.now))) }
    ensures refused { IfErr result (IsRefused (Some (name.now, rows_of (found_of matches.now)))) }
{
    match name {
        "run" => run_of(alloc, matches),
        "check" => check_of(alloc, matches),
        "lint" => lint_of(alloc, matches),
        "codes" => codes_of(alloc, matches),
        "audit" => audit_of(alloc, matches),
        "change" => change_of(alloc, matches),
        "order" => order_of(alloc, matches),
        "mend" => mend_of(alloc, matches),
        "survive" => survive_of(alloc, matches),
        "page" => page_of(alloc, matches),
        "grade" => grade_of(alloc, matches),
        "trace" => trace_of(alloc, matches),
        "fill" => fill_of(alloc, matches),
        "explain" => explain_of(alloc, matches),
        _ => Err(Misuse::Incomplete),
    }
}
