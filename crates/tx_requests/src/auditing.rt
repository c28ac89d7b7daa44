// The command `audit`.
ghost use Rattle.std.specs.List.{AllByRecursion};
ghost use Rattle.tx_text.specs.Calls.{CallsAtMost, source_calls};
ghost use Rattle.tx_text.specs.Ends.{input};
ghost use Rattle.tx_plan.specs.Rules.{IsPlan};
ghost use Rattle.tx_rank.specs.Findings.{IsTrueOf};
ghost use Rattle.tx_audit.specs.Audits.{OnUnsound};
ghost use Rattle.tx_requests.specs.Audit.{AuditEnds, EndsAfterNo, LeftAnswers, left_prints, LeftEnds, IsAudited};

use crate::carrying::carry_left;
use crate::request::Request;
use std::alloc::Allocator;
use tx_audit::{Audited, first_counter, judge};
use tx_commands::AuditRequest;
use tx_files::{CommandFault, CounterScript, Ending, Shown, read_one};
use tx_jobs::audit_job;
use tx_page::is_safe;
use tx_plan::{Limits, Plan};
use tx_rank::{Finding, Ranking, write_report};
use tx_text::{Sink, Source, WriteFault};

/// Does the job of `audit`. The certificate goes into a file after a Yes, and after a No the script
/// of the first finding that has one. While groups are down it is a request, of the plan that is
/// left, and no file is made.
pub(crate) fn do_audit<A: Allocator + Copy, P: Source, W: Sink>(
    alloc: A,
    request: &AuditRequest,
    plan: &mut P,
    out: &mut W,
) -> Result<Ending<A>, CommandFault>
    ensures done { IsAudited W.taken W.failed out.old out.new
        (input P.rest P.failed P.called plan.old plan.new) request.now request.now.down result }
    ensures calls { CallsAtMost P.called source_calls plan.old plan.new }
{
    match &request.down {
        None => {
            let audited = audit_job(alloc, plan, request.limits.limit, request.limits.spare, out)?;
            end_audit(alloc, request, audited)
        }
        Some(down) => carry_left(alloc, request, Some(down), read_one(alloc, plan), out),
    }
}

/// While groups are down.
impl<A: Allocator + Copy> Request<A> for AuditRequest {
    type Texts = Plan<A>;

    type Answer = (Plan<A>, Ranking<A>);

    ghost fits = { IsPlan };

    ghost answers = { LeftAnswers };

    ghost prints = { left_prints };

    ghost ends = { λ _. LeftEnds };

    fn answer(&self, alloc: A, texts: Self::Texts) -> Result<Self::Answer, CommandFault> {
        let ranking = judge(alloc, &texts, self.limits)?;
        Ok((texts, ranking))
    }

    fn print<W: Sink>(&self, answer: &Self::Answer, out: &mut W) -> Result<(), WriteFault> {
        write_report(b"AUDIT", &answer.0, &answer.1, self.limits, out)
    }

    fn end(&self, _alloc: A, answer: Self::Answer) -> Result<Ending<A>, CommandFault> {
        if is_safe(&answer.1) {
            Ok(Ending::of(0))
        } else {
            Ok(Ending::of(1))
        }
    }
}

/// What is left to say once the report of an audit is out.
fn end_audit<A: Allocator + Copy>(
    alloc: A,
    request: &AuditRequest,
    audited: Audited<A>,
) -> Result<Ending<A>, CommandFault>
    requires { OnUnsound (λ p findings. AllByRecursion
        (IsTrueOf p request.now.limits.limit request.now.limits.spare) findings) audited }
    ensures { AuditEnds request.now audited result }
{
    match audited {
        Audited::Sound(plan, cert) => Ok(Ending::with(0, Shown::Plan(plan), None, Some(cert))),
        Audited::Unsound(plan, findings) => {
            let asked = request.counter.is_some();
            end_after_no(alloc, asked, plan, &findings, request.limits)
        }
    }
}

/// After a No the script of the first finding that has one, if it is asked for.
fn end_after_no<A: Allocator + Copy>(
    alloc: A,
    asked: bool,
    plan: Plan<A>,
    findings: &[Finding<A>],
    limits: Limits,
) -> Result<Ending<A>, CommandFault>
    requires { AllByRecursion (IsTrueOf plan limits.limit limits.spare) findings.now }
    ensures { EndsAfterNo asked plan limits.limit limits.spare findings.now result }
{
    if !asked {
        return Ok(Ending::of(1));
    }
    match first_counter(alloc, &plan, findings, limits)? {
        Some(events) => {
            let script = Shown::Script(CounterScript { plan, events });
            Ok(Ending::with(1, script, None, None))
        }
        None => Ok(Ending::of(1)),
    }
}
