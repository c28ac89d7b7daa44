// The job of `check PLAN CERT --limit L --spare K`.
ghost use Rattle.std.specs.Prelude.{◌≡◌, ◌≤◌};
ghost use Rattle.tx_text.specs.Calls.{CallsAtMost, source_calls};
ghost use Rattle.tx_jobs.specs.JobFaults.{mark_after};
ghost use Rattle.tx_text.specs.Ends.{input, output};
ghost use Rattle.tx_jobs.specs.CheckJobs.{CheckJobAnswers, CheckAnswers, ToldVerdict};

use crate::job_fault::JobFault;
use std::alloc::Allocator;
use tx_cert::{Cert, read_cert_from};
use tx_check::{Verdict, check, write_verdict};
use tx_plan::{Limits, Plan};
use tx_plantext::read_plan_from;
use tx_text::{Sink, Source};

/// Reads a plan and then a certificate, and writes whether the plan is certified by its ranks for
/// at most `limit` transits (0 to 62) and `spare` groups to spare (0 to 15). Answers the verdict.
/// `Err` is the fault of the first call that failed.
pub fn check_job<A: Allocator + Copy, P: Source, R: Source, W: Sink>(
    alloc: A,
    plan: &mut P,
    cert: &mut R,
    limit: u8,
    spare: u8,
    out: &mut W,
) -> Result<Verdict, JobFault>
    requires limit { limit ≤ 62 }
    requires spare { spare ≤ 15 }
    ensures answers { CheckJobAnswers limit spare (input P.rest P.failed P.called plan.old plan.new)
        (input R.rest R.failed R.called cert.old cert.new) (output W.taken out.old out.new) result }
    ensures mark { W.failed out.new ≡ mark_after (W.failed out.old) result }
    ensures plan_calls { CallsAtMost P.called source_calls plan.old plan.new }
    ensures cert_calls { CallsAtMost R.called source_calls cert.old cert.new }
{
    let plan = read_plan_from(alloc, plan)?;
    check_cert(alloc, &plan, cert, Limits { limit, spare }, out)
}

/// Reads a certificate of the plan, and writes the verdict.
fn check_cert<A: Allocator + Copy, R: Source, W: Sink>(
    alloc: A,
    plan: &Plan<A>,
    cert: &mut R,
    limits: Limits,
    out: &mut W,
) -> Result<Verdict, JobFault>
    ensures answers { CheckAnswers plan.now limits.limit limits.spare
        (input R.rest R.failed R.called cert.old cert.new) (output W.taken out.old out.new) result }
    ensures mark { W.failed out.new ≡ mark_after (W.failed out.old) result }
    ensures calls { CallsAtMost R.called source_calls cert.old cert.new }
{
    let cert = read_cert_from(alloc, cert, plan)?;
    tell_verdict(plan, &cert, limits, out)
}

/// Checks a certificate, and writes the verdict.
fn tell_verdict<A: Allocator, W: Sink>(
    plan: &Plan<A>,
    cert: &Cert<A>,
    limits: Limits,
    out: &mut W,
) -> Result<Verdict, JobFault>
    ensures told { ToldVerdict plan.now cert.now limits.limit limits.spare
        (output W.taken out.old out.new) result }
    ensures mark { W.failed out.new ≡ mark_after (W.failed out.old) result }
{
    let verdict = check(plan, cert, limits.limit, limits.spare);
    write_verdict(&verdict, plan, out)?;
    Ok(verdict)
}
