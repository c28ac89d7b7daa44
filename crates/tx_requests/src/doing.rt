// All commands, behind one call.
ghost use Rattle.std.specs.Prelude.{◌≡◌, ◌≢◌, option_map};
ghost use Rattle.tx_text.specs.Calls.{CallsAtMost, source_calls};
ghost use Rattle.tx_text.specs.Ends.{input};
ghost use Rattle.tx_commands.specs.declared.command.Command.TheVariants.{Pipe};
ghost use Rattle.tx_requests.specs.Doing.{down_of, IsDone};

use crate::auditing::do_audit;
use crate::carrying::{carry_left, carry_out};
use crate::explain::do_explain;
use crate::linting::do_lint;
use crate::running::{do_check, do_codes, do_pipe, do_run, do_telling};
use std::alloc::Allocator;
use tx_commands::{Command, Down};
use tx_files::{
    CommandFault, Ending, read_for_page, read_one, read_plans, read_plans_with_risks, read_stopped,
    read_this, read_with_old, read_with_risks,
};
use tx_text::{Sink, Source};

/// Does what a command asks for: reads its texts, in the order in which its files are opened, writes
/// what it prints, and answers its exit status and what goes into its files. `Err` is the first
/// fault.
pub fn do_command<A: Allocator + Copy, P: Source, Q: Source, R: Source, W: Sink>(
    alloc: A,
    command: &Command,
    first: &mut P,
    second: &mut Q,
    third: &mut R,
    out: &mut W,
) -> Result<Ending<A>, CommandFault>
    ensures done { IsDone P.rest P.failed P.called first.old first.new
        (input Q.rest Q.failed Q.called second.old second.new)
        (input R.rest R.failed R.called third.old third.new)
        W.taken W.failed out.old out.new command.now result }
    ensures first_calls { command.now ≢ Pipe
        → CallsAtMost P.called source_calls first.old first.new }
    ensures second_calls { CallsAtMost Q.called source_calls second.old second.new }
    ensures third_calls { CallsAtMost R.called source_calls third.old third.new }
{
    let down = down_of(command);
    match command {
        Command::Pipe => do_pipe(alloc, first, out),
        Command::Run(request) => do_run(alloc, request, first, second, third, out),
        Command::RunTelling(request) => do_telling(alloc, request, first, second, third, out),
        Command::Check(request) => do_check(alloc, request, first, second, out),
        Command::Codes(_) => do_codes(alloc, first, out),
        Command::Audit(request) => do_audit(alloc, request, first, out),
        Command::Lint(request) => do_lint(alloc, request, first, second, out),
        Command::Change(request) => {
            carry_left(alloc, request, down, read_plans(alloc, first, second), out)
        }
        Command::Order(request) => {
            let done = request.done.is_some();
            let texts = read_stopped(alloc, request.stopped, done, first, second, third);
            carry_left(alloc, request, down, texts, out)
        }
        Command::Mend(request) => carry_left(alloc, request, down, read_this(alloc, first), out),
        Command::Survive(request) => {
            let texts = read_with_risks(alloc, request.risks.is_some(), first, second);
            carry_left(alloc, request, down, texts, out)
        }
        Command::Compare(request) => {
            let texts = read_plans_with_risks(alloc, request.risks.is_some(), first, second, third);
            carry_left(alloc, request, down, texts, out)
        }
        Command::Page(request) => {
            let (risks, old) = (request.risks.is_some(), request.old.is_some());
            let texts = read_for_page(alloc, risks, old, first, second, third);
            carry_left(alloc, request, down, texts, out)
        }
        Command::Grade(request) => carry_left(alloc, request, down, read_one(alloc, first), out),
        Command::Trace(request) => carry_out(alloc, request, read_one(alloc, first), out),
        Command::TraceThrough(request) => carry_out(alloc, request, read_one(alloc, first), out),
        Command::TraceChanges(request) => {
            carry_out(alloc, request, read_with_old(alloc, first, second), out)
        }
        Command::Fill(request) => carry_out(alloc, request, read_one(alloc, first), out),
        Command::Explain(request) => do_explain(request, out),
    }
}

/// What is down while a command judges plans, if anything is.
pub fn down_of(command: &Command) -> Option<&Down>
    ensures { option_map (λ d. d.now) result ≡ down_of command.now }
{
    match command {
        Command::Audit(request) => request.down.as_ref(),
        Command::Change(request) => request.down.as_ref(),
        Command::Order(request) => request.down.as_ref(),
        Command::Mend(request) => request.down.as_ref(),
        Command::Survive(request) => request.down.as_ref(),
        Command::Compare(request) => request.down.as_ref(),
        Command::Page(request) => request.down.as_ref(),
        Command::Grade(request) => request.down.as_ref(),
        _ => None,
    }
}
