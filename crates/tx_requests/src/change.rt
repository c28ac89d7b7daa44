// The command `change`.
ghost use Rattle.std.specs.Prelude.{◌≡◌, ◌∷◌, [], None, Some, is_some, IfOk, IfErr};
ghost use Rattle.std.specs.List.{AllByRecursion};
ghost use Rattle.tx_plan.specs.Rules.{IsPlan};
ghost use Rattle.tx_rank.specs.Findings.{IsTrueOf};
ghost use Rattle.tx_cert.specs.CertText.{cert_written};
ghost use Rattle.tx_change.specs.Shown.{IsShown};
ghost use Rattle.tx_files.specs.Faults.{memory_stop};
ghost use Rattle.tx_files.specs.Made.{shown_plan, texts_of};
ghost use Rattle.tx_files.specs.TwoPlans.{AreJoined};
ghost use Rattle.tx_requests.specs.Change.{ChangeAnswers, change_prints, ChangeEnds, is_shown, EndsWithMixture, EndsWithNewPlan};
ghost use Rattle.tx_requests.specs.inner.Changes.{IsMadeOf};

use crate::request::Request;
use std::alloc::Allocator;
use tx_cert::Cert;
use tx_change::{ChangeVerdict, first_mixture, judge_change, new_plan_shown, write_change};
use tx_commands::ChangeRequest;
use tx_files::{CommandFault, Ending, PlanText, Shown, TwoPlans, text_if_asked};
use tx_rank::Finding;
use tx_text::{Sink, WriteFault};

impl<A: Allocator + Copy> Request<A> for ChangeRequest {
    type Texts = TwoPlans<A>;

    type Answer = (TwoPlans<A>, ChangeVerdict<A>);

    ghost fits = { AreJoined };

    ghost answers = { ChangeAnswers };

    ghost prints = { change_prints };

    ghost ends = { ChangeEnds };

    fn answer(&self, alloc: A, texts: Self::Texts) -> Result<Self::Answer, CommandFault> {
        let verdict = judge_change(alloc, &texts.joined, &texts.new.plan, self.limits)?;
        Ok((texts, verdict))
    }

    fn print<W: Sink>(&self, answer: &Self::Answer, out: &mut W) -> Result<(), WriteFault> {
        let plans = &answer.0;
        write_change(
            &plans.old.plan,
            &plans.new.plan,
            &plans.joined,
            &answer.1,
            self.limits,
            out,
        )
    }

    fn end(&self, alloc: A, answer: Self::Answer) -> Result<Ending<A>, CommandFault> {
        let (plans, verdict) = answer;
        match verdict {
            ChangeVerdict::Sound(cert) => Ok(end_with_cert(plans, cert)),
            ChangeVerdict::Unsound(findings) => end_with_mixture(alloc, self, plans, &findings),
            ChangeVerdict::NewUnsound(findings) => end_with_new_plan(alloc, self, plans, &findings),
        }
    }
}

/// After a Yes: the certificate, which is one of both plans over their joined network.
fn end_with_cert<A: Allocator>(plans: TwoPlans<A>, cert: Cert<A>) -> Ending<A>
    ensures status { result.status ≡ 0 }
    ensures made { texts_of result.made
        ≡ None ∷ Some (cert_written plans.joined.old cert) ∷ None ∷ [] }
{
    let TwoPlans { joined, .. } = plans;
    Ending::with(0, Shown::Plan(joined.old), None, Some(cert))
}

/// Whether what shows a No goes into a file.
fn is_shown(request: &ChangeRequest) -> bool
    ensures { result ≡ is_shown request.now }
{
    request.mixture.is_some() || request.counter.is_some()
}

/// After a No of a mixture: that of the first finding with a walk.
fn end_with_mixture<A: Allocator + Copy>(
    alloc: A,
    request: &ChangeRequest,
    plans: TwoPlans<A>,
    findings: &[Finding<A>],
) -> Result<Ending<A>, CommandFault>
    requires joined { AreJoined plans }
    requires each { AllByRecursion (IsShown plans.joined.old plans.joined.new
        request.now.limits.limit request.now.limits.spare) findings.now }
    ensures { EndsWithMixture request.now plans findings.now result }
{
    if !is_shown(request) {
        return Ok(Ending::of(1));
    }
    let TwoPlans { old, joined, .. } = plans;
    match first_mixture(alloc, joined.old, &joined.new, findings, request.limits)? {
        Some(mixture) => end_with(alloc, request, &old, Shown::of(mixture)),
        None => Ok(Ending::of(1)),
    }
}

/// After a No of the new plan as it is: this plan, with its first finding that has a walk.
fn end_with_new_plan<A: Allocator + Copy>(
    alloc: A,
    request: &ChangeRequest,
    plans: TwoPlans<A>,
    findings: &[Finding<A>],
) -> Result<Ending<A>, CommandFault>
    requires joined { AreJoined plans }
    requires each { AllByRecursion (IsTrueOf plans.new.plan
        request.now.limits.limit request.now.limits.spare) findings.now }
    ensures { EndsWithNewPlan request.now plans findings.now result }
{
    if !is_shown(request) {
        return Ok(Ending::of(1));
    }
    let TwoPlans { old, new, .. } = plans;
    match new_plan_shown(alloc, new.plan, findings, request.limits)? {
        Some(shown) => end_with(alloc, request, &old, Shown::of(shown)),
        None => Ok(Ending::of(1)),
    }
}

/// With a plan that shows a No, and its text if that goes into a file.
fn end_with<A: Allocator + Copy>(
    alloc: A,
    request: &ChangeRequest,
    old: &PlanText<A>,
    shown: Shown<A>,
) -> Result<Ending<A>, CommandFault>
    requires { IsPlan (shown_plan shown) }
    ensures status { IfOk result (λ e. e.status ≡ 1) }
    ensures made { IfOk result (λ e. IsMadeOf (is_some request.now.mixture) old.now shown e.made) }
    ensures refused { IfErr result (λ fault. fault ≡ memory_stop) }
{
    let text = text_if_asked(alloc, request.mixture.is_some(), &old.text, shown.plan())?;
    Ok(Ending::with(1, shown, text, None))
}
