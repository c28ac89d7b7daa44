// The words that the program takes, with what its help says of them. The help of each command ends
// with an example and the exit statuses.
ghost use Rattle.std.specs.Prelude.{◌≡◌, Ok, IfOk};
ghost use Rattle.clap.specs.Words.{AddsSubcommand, app_of};
ghost use Rattle.clap.specs.declared.builder.command.Command.{Command};
ghost use Rattle.tx_commands.specs.Grammar as grammar;

use crate::audit::audit_grammar;
use crate::change::change_grammar;
use crate::check::check_grammar;
use crate::codes::codes_grammar;
use crate::explain::explain_grammar;
use crate::fill::fill_grammar;
use crate::grade::grade_grammar;
use crate::lint::lint_grammar;
use crate::mend::mend_grammar;
use crate::order::order_grammar;
use crate::page::page_grammar;
use crate::run::run_grammar;
use crate::survive::survive_grammar;
use crate::trace::trace_grammar;
use std::alloc::{AllocError, Global};

/// The version of the program.
pub const VERSION: &str = "1.0.0";

const PROGRAM_HELP: &str = "Example: telexplan audit own.plan --limit 1 --spare 1

Exit status: 0 for a YES or a job done, 1 for a NO, 2 for a refused text, 3 for
a failed read or write, 4 when out of memory, 64 for refused words";

/// The program's name, its version and what it does.
fn top_grammar<'a>(alloc: Global) -> Result<clap::Command<'a>, AllocError>
    ensures { IfOk result (λ c. app_of c ≡ grammar.top_words) }
{
    clap::Command::new(alloc, "telexplan")
        .version(VERSION)
        .about(
            "Audit the route plan of an automatic telex network, and simulate calls over it.
Without words, a plan and a script are read from standard input.",
        )
        .after_help(PROGRAM_HELP)
        .no_binary_name(true)
        .bin_name("telexplan")
}

/// The program with one command more, if both could be made.
fn with_command<'a>(
    program: Result<clap::Command<'a>, AllocError>,
    command: Result<clap::Command<'a>, AllocError>,
) -> Result<clap::Command<'a>, AllocError>
    ensures { IfOk result (λ c. (top : Command) × (words : Command)
        × (program.entry ≡ Ok top) × (command.entry ≡ Ok words) × AddsSubcommand top words c) }
{
    program?.subcommand(command?)
}

/// The words that the program takes.
pub(crate) fn grammar<'a>(alloc: Global) -> Result<clap::Command<'a>, AllocError>
    ensures { IfOk result (λ c. app_of c ≡ grammar.program_words) }
{
    let program = with_command(
        with_command(judging_grammar(alloc), run_grammar(alloc)),
        codes_grammar(alloc),
    );
    let program = with_command(
        with_command(program, trace_grammar(alloc)),
        fill_grammar(alloc),
    );
    with_command(program, explain_grammar(alloc))
}

/// The program with the commands that judge a plan.
fn judging_grammar<'a>(alloc: Global) -> Result<clap::Command<'a>, AllocError>
    ensures { IfOk result (λ c. app_of c ≡ grammar.judging_words) }
{
    let program = with_command(
        with_command(top_grammar(alloc), lint_grammar(alloc)),
        audit_grammar(alloc),
    );
    let program = with_command(
        with_command(program, grade_grammar(alloc)),
        mend_grammar(alloc),
    );
    let program = with_command(
        with_command(program, change_grammar(alloc)),
        order_grammar(alloc),
    );
    let program = with_command(
        with_command(program, survive_grammar(alloc)),
        page_grammar(alloc),
    );
    with_command(program, check_grammar(alloc))
}

/// A command alone, under the name by which it is called.
pub(crate) fn asked_grammar<'a>(
    alloc: Global,
    name: &str,
) -> Result<clap::Command<'a>, AllocError> {
    let command = match name {
        "" => return grammar(alloc),
        "lint" => lint_grammar(alloc),
        "audit" => audit_grammar(alloc),
        "grade" => grade_grammar(alloc),
        "mend" => mend_grammar(alloc),
        "change" => change_grammar(alloc),
        "order" => order_grammar(alloc),
        "survive" => survive_grammar(alloc),
        "page" => page_grammar(alloc),
        "run" => run_grammar(alloc),
        "codes" => codes_grammar(alloc),
        "trace" => trace_grammar(alloc),
        "fill" => fill_grammar(alloc),
        "explain" => explain_grammar(alloc),
        _ => check_grammar(alloc),
    };
    let called = format!(in alloc; "telexplan {name}")?;
    command?.bin_name(called.as_str())
}
