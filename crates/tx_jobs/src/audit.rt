// The job of `audit PLAN --limit L --spare K`.
ghost use Rattle.std.specs.Prelude.{◌≡◌, ◌≤◌, IfOk};
ghost use Rattle.std.specs.List.{AllByRecursion};
ghost use Rattle.tx_text.specs.Calls.{CallsAtMost, source_calls};
ghost use Rattle.tx_rank.specs.Findings.{IsTrueOf};
ghost use Rattle.tx_audit.specs.Audits.{OnUnsound};
ghost use Rattle.tx_jobs.specs.JobFaults.{mark_after};
ghost use Rattle.tx_text.specs.Ends.{input, output};
ghost use Rattle.tx_jobs.specs.AuditJobs.{AuditJobAnswers};

use crate::job_fault::JobFault;
use std::alloc::Allocator;
use tx_audit::{Audited, audit};
use tx_text::{Sink, Source};

/// Reads a plan, and writes the report of its audit for at most `limit` transits (0 to 62) and
/// `spare` groups to spare (0 to 15). Answers the plan, with a certificate or with the findings.
/// `Err` is the fault of the first call that failed.
pub fn audit_job<A: Allocator + Copy, P: Source, W: Sink>(
    alloc: A,
    plan: &mut P,
    limit: u8,
    spare: u8,
    out: &mut W,
) -> Result<Audited<A>, JobFault>
    requires limit { limit ≤ 62 }
    requires spare { spare ≤ 15 }
    ensures answers { AuditJobAnswers limit spare
        (input P.rest P.failed P.called plan.old plan.new) (output W.taken out.old out.new) result }
    ensures each { IfOk result
        (OnUnsound (λ p findings. AllByRecursion (IsTrueOf p limit spare) findings)) }
    ensures mark { W.failed out.new ≡ mark_after (W.failed out.old) result }
    ensures calls { CallsAtMost P.called source_calls plan.old plan.new }
{
    Ok(audit(alloc, plan, limit, spare, out)?)
}
