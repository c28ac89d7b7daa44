// The command `lint`.
ghost use Rattle.std.specs.Prelude.{◌≡◌, [], true, Err};
ghost use Rattle.tx_text.specs.Calls.{CallsAtMost, source_calls};
ghost use Rattle.tx_lint.specs.Lints.{lint_held};
ghost use Rattle.tx_files.specs.Faults.{fault_mark};
ghost use Rattle.tx_text.specs.Ends.{input, output};
ghost use Rattle.tx_requests.specs.Lint.{read_stop, ToldLint, LintedInRoom, LintAnswers, LintRisksAnswers, IsLinted, WarnedWithRisks};

use std::alloc::Allocator;
use tx_commands::LintRequest;
use tx_files::{CommandFault, Ending};
use tx_lint::{Lint, Look, RightText, lint_plan, look_through, write_lint};
use tx_risk::read_risks_from;
use tx_text::{Sink, Source, read_whole_text};

/// Looks the text of a plan through: all its faults are written, or where it has none, its warnings,
/// with the named risks if they are asked for.
pub(crate) fn do_lint<A: Allocator + Copy, P: Source, R: Source, W: Sink>(
    alloc: A,
    request: &LintRequest,
    plan: &mut P,
    risks: &mut R,
    out: &mut W,
) -> Result<Ending<A>, CommandFault>
    ensures done { IsLinted request.now (input P.rest P.failed P.called plan.old plan.new)
        (input R.rest R.failed R.called risks.old risks.new) (output W.taken out.old out.new)
        (W.failed out.old) (W.failed out.new) result }
    ensures failed { P.failed plan.new ≡ true → result ≡ Err read_stop }
    ensures plan_calls { CallsAtMost P.called source_calls plan.old plan.new }
    ensures risks_calls { CallsAtMost R.called source_calls risks.old risks.new }
{
    let file = request.plan.as_bytes();
    if request.risks.is_some() {
        Ok(Ending::of(lint_with_risks(alloc, plan, file, risks, out)?))
    } else {
        Ok(Ending::of(lint_whole(alloc, plan, file, out)?))
    }
}

/// Reads a plan's text to its end, and writes all its faults; or where it has none, the warnings of
/// its plan. Each line begins with the words for the file of the text. Answers the exit status: 0
/// without any line, 1 after warnings, 2 after faults.
///
/// Nothing is written where the text cannot be read to its end, or where memory runs out. A source
/// that failed is reported as a read fault.
fn lint_whole<A: Allocator + Copy, P: Source, W: Sink>(
    alloc: A,
    plan: &mut P,
    file: &[u8],
    out: &mut W,
) -> Result<u8, CommandFault>
    ensures answers { LintAnswers file.now
        (input P.rest P.failed P.called plan.old plan.new) (output W.taken out.old out.new) result }
    ensures failed { P.failed plan.new ≡ true → result ≡ Err read_stop }
    ensures mark { W.failed out.new ≡ fault_mark (W.failed out.old) result }
    ensures calls { CallsAtMost P.called source_calls plan.old plan.new }
{
    let text = read_whole_text(alloc, plan)?;
    lint_text(alloc, &text, file, out)
}

/// The same with the named risks of a second text, which is read where the plan's text has no
/// faults.
fn lint_with_risks<A: Allocator + Copy, P: Source, R: Source, W: Sink>(
    alloc: A,
    plan: &mut P,
    file: &[u8],
    risks: &mut R,
    out: &mut W,
) -> Result<u8, CommandFault>
    ensures answers { LintRisksAnswers file.now
        (input P.rest P.failed P.called plan.old plan.new)
        (input R.rest R.failed R.called risks.old risks.new) (output W.taken out.old out.new)
        result }
    ensures failed { P.failed plan.new ≡ true → result ≡ Err read_stop }
    ensures mark { W.failed out.new ≡ fault_mark (W.failed out.old) result }
    ensures plan_calls { CallsAtMost P.called source_calls plan.old plan.new }
    ensures risks_calls { CallsAtMost R.called source_calls risks.old risks.new }
{
    let text = read_whole_text(alloc, plan)?;
    match look_through(alloc, &text)? {
        Look::Faults(faults) => tell_lint(&Lint::Faults(faults), file, out),
        Look::Right(right) => warn_with_risks(alloc, right, file, risks, out),
    }
}

/// Reads the named risks of a plan, and writes its warnings.
fn warn_with_risks<A: Allocator + Copy, R: Source, W: Sink>(
    alloc: A,
    right: RightText<A>,
    file: &[u8],
    risks: &mut R,
    out: &mut W,
) -> Result<u8, CommandFault>
    ensures answers { WarnedWithRisks right file.now
        (input R.rest R.failed R.called risks.old risks.new) (output W.taken out.old out.new)
        result }
    ensures mark { W.failed out.new ≡ fault_mark (W.failed out.old) result }
    ensures calls { CallsAtMost R.called source_calls risks.old risks.new }
{
    let risks = read_risks_from(alloc, risks, right.plan())?;
    let lint = right.warned(alloc, risks)?;
    tell_lint(&lint, file, out)
}

/// Looks a text through, and writes its faults or warnings.
fn lint_text<A: Allocator + Copy, W: Sink>(
    alloc: A,
    text: &[u8],
    file: &[u8],
    out: &mut W,
) -> Result<u8, CommandFault>
    ensures linted { LintedInRoom text.now [] file.now (output W.taken out.old out.new) result }
    ensures mark { W.failed out.new ≡ fault_mark (W.failed out.old) result }
{
    let lint = lint_plan(alloc, text)?;
    tell_lint(&lint, file, out)
}

/// Writes the faults or warnings of a text, and returns the exit status.
fn tell_lint<A: Allocator, W: Sink>(
    lint: &Lint<'_, A>,
    file: &[u8],
    out: &mut W,
) -> Result<u8, CommandFault>
    ensures told { ToldLint file.now (lint_held lint.now) (output W.taken out.old out.new) result }
    ensures mark { W.failed out.new ≡ fault_mark (W.failed out.old) result }
{
    write_lint(lint, file, out)?;
    Ok(lint.status())
}
