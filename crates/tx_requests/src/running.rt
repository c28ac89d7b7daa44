// Commands that are done by a job.
ghost use Rattle.std.specs.Prelude.{◌≡◌};
ghost use Rattle.tx_text.specs.Calls.{CallsAtMost, source_calls};
ghost use Rattle.tx_text.specs.Ends.{input, output};
ghost use Rattle.tx_jobs.specs.CheckJobs.{CheckJobAnswers};
ghost use Rattle.tx_jobs.specs.Jobs.{CodesJobAnswers};
ghost use Rattle.tx_jobs.specs.PipeJobs.{PipeJobAnswers};
ghost use Rattle.tx_files.specs.Ending.{EndsWith};
ghost use Rattle.tx_requests.specs.Jobs.{IsJobDone, verdict_status, pair_status, strict_status, checked_status};
ghost use Rattle.tx_requests.specs.Runs.{IsRunDone, IsTellingDone};

use std::alloc::Allocator;
use tx_audit::Checked;
use tx_check::Verdict;
use tx_commands::{CheckRequest, RunRequest, TellingRequest};
use tx_files::{CommandFault, Ending};
use tx_jobs::{
    check_job, codes_job, pipe_job, run_checked_job, run_checked_telling_job, run_job,
    run_telling_job,
};
use tx_script::{Summary, Telling};
use tx_text::{Sink, Source};

/// Does the job of a plan and a script in one input.
pub(crate) fn do_pipe<A: Allocator + Copy, P: Source, W: Sink>(
    alloc: A,
    first: &mut P,
    out: &mut W,
) -> Result<Ending<A>, CommandFault>
    ensures { IsJobDone (PipeJobAnswers P.rest P.failed P.called first.old first.new
        (output W.taken out.old out.new)) (λ _. EndsWith 0)
        (W.failed out.old) (W.failed out.new) result }
{
    pipe_job(alloc, first, out)?;
    Ok(Ending::of(0))
}

/// Does the job of `run`, after a check if one is asked for.
pub(crate) fn do_run<A: Allocator + Copy, P: Source, Q: Source, R: Source, W: Sink>(
    alloc: A,
    request: &RunRequest,
    first: &mut P,
    second: &mut Q,
    third: &mut R,
    out: &mut W,
) -> Result<Ending<A>, CommandFault>
    ensures done { IsRunDone request.now.checked
        (input P.rest P.failed P.called first.old first.new)
        (input Q.rest Q.failed Q.called second.old second.new)
        (input R.rest R.failed R.called third.old third.new) (output W.taken out.old out.new)
        (W.failed out.old) (W.failed out.new) result }
    ensures first_calls { CallsAtMost P.called source_calls first.old first.new }
    ensures second_calls { CallsAtMost Q.called source_calls second.old second.new }
    ensures third_calls { CallsAtMost R.called source_calls third.old third.new }
{
    match &request.checked {
        None => {
            run_job(alloc, first, second, out)?;
            Ok(Ending::of(0))
        }
        Some((_, limits)) => {
            let (limit, spare) = (limits.limit, limits.spare);
            let checked = run_checked_job(alloc, first, second, limit, spare, third, out)?;
            Ok(Ending::of(checked_status(false, checked)))
        }
    }
}

/// Does the job of `run` where more is printed, after a check if one is asked for.
pub(crate) fn do_telling<A: Allocator + Copy, P: Source, Q: Source, R: Source, W: Sink>(
    alloc: A,
    request: &TellingRequest,
    first: &mut P,
    second: &mut Q,
    third: &mut R,
    out: &mut W,
) -> Result<Ending<A>, CommandFault>
    ensures done { IsTellingDone
        (record { echo = request.now.echo; summary = request.now.summary })
        request.now.strict request.now.run.checked
        (input P.rest P.failed P.called first.old first.new)
        (input Q.rest Q.failed Q.called second.old second.new)
        (input R.rest R.failed R.called third.old third.new) (output W.taken out.old out.new)
        (W.failed out.old) (W.failed out.new) result }
    ensures first_calls { CallsAtMost P.called source_calls first.old first.new }
    ensures second_calls { CallsAtMost Q.called source_calls second.old second.new }
    ensures third_calls { CallsAtMost R.called source_calls third.old third.new }
{
    let telling = Telling {
        echo: request.echo,
        summary: request.summary,
    };
    match &request.run.checked {
        None => {
            let summary = run_telling_job(alloc, telling, first, second, out)?;
            Ok(Ending::of(strict_status(request.strict, summary)))
        }
        Some((_, limits)) => {
            let told = Some(telling);
            let checked = run_checked_telling_job(alloc, told, first, second, *limits, third, out)?;
            Ok(Ending::of(checked_status(request.strict, checked)))
        }
    }
}

/// The exit status of a run after a check.
fn checked_status(strict: bool, checked: Checked) -> u8
    ensures { result ≡ checked_status strict checked }
{
    match checked {
        Checked::Ran(summary) => strict_status(strict, summary),
        Checked::Denied(_) => 1,
    }
}

/// The exit status of a run that is to show whether an event was refused.
fn strict_status(strict: bool, summary: Summary) -> u8
    ensures { result ≡ strict_status strict summary }
{
    u8::from(strict && summary.refused != 0)
}

/// Does the job of `check`.
pub(crate) fn do_check<A: Allocator + Copy, P: Source, Q: Source, W: Sink>(
    alloc: A,
    request: &CheckRequest,
    first: &mut P,
    second: &mut Q,
    out: &mut W,
) -> Result<Ending<A>, CommandFault>
    ensures done { IsJobDone (CheckJobAnswers request.now.limits.limit request.now.limits.spare
        (input P.rest P.failed P.called first.old first.new)
        (input Q.rest Q.failed Q.called second.old second.new) (output W.taken out.old out.new))
        (λ verdict. EndsWith (verdict_status verdict)) (W.failed out.old) (W.failed out.new) result }
    ensures first_calls { CallsAtMost P.called source_calls first.old first.new }
    ensures second_calls { CallsAtMost Q.called source_calls second.old second.new }
{
    let (limit, spare) = (request.limits.limit, request.limits.spare);
    match check_job(alloc, first, second, limit, spare, out)? {
        Verdict::Yes => Ok(Ending::of(0)),
        Verdict::No(_) => Ok(Ending::of(1)),
    }
}

/// Does the job of `codes`.
pub(crate) fn do_codes<A: Allocator + Copy, P: Source, W: Sink>(
    alloc: A,
    first: &mut P,
    out: &mut W,
) -> Result<Ending<A>, CommandFault>
    ensures done { IsJobDone (CodesJobAnswers
        (input P.rest P.failed P.called first.old first.new) (output W.taken out.old out.new))
        (λ pair. EndsWith (pair_status pair)) (W.failed out.old) (W.failed out.new) result }
    ensures first_calls { CallsAtMost P.called source_calls first.old first.new }
{
    let pair = codes_job(alloc, first, out)?;
    Ok(Ending::of(u8::from(pair.is_some())))
}
