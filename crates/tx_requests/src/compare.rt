// The command `survive` with an old plan.
ghost use Rattle.std.specs.Prelude.{IfOk};
ghost use Rattle.std.specs.List.{AllByRecursion};
ghost use Rattle.tx_risk.specs.Compared.{AreInOrder};
ghost use Rattle.tx_risk.specs.NamedRisks.{AreRisksFor};
ghost use Rattle.tx_files.specs.TwoPlans.{HavePlansRisks};
ghost use Rattle.tx_requests.specs.Compare.{CompareAnswers, ComparePrints, CompareEnds, IsOutlookOf, AreBeside, IsWrittenOf};

use crate::page_found::outcomes_of;
use crate::request::Request;
use crate::survive::named_only;
use std::alloc::{Allocator, Global};
use tx_commands::CompareRequest;
use tx_files::{CommandFault, Ending, PlansRisks};
use tx_plan::Plan;
use tx_rank::{Grade, grade};
use tx_risk::{Outage, Outcome, Risks, Side, outages_of};
use tx_risk_report::{Comparison, is_against, write_comparison};
use tx_text::{NoMemory, Sink, WriteFault};

/// The grade of a plan, and what its outages come to, if it has one.
#[derive(Drop)]
pub struct Outlook<A: Allocator = Global> {
    pub grade: Grade<A>,
    pub outcomes: Vec<Outcome<A>, A>,
}

/// Two plans with named risks, all outages of both, and what they come to in each.
#[derive(Drop)]
pub struct Compared<A: Allocator = Global> {
    pub texts: PlansRisks<A>,
    pub outages: Vec<Outage, A>,
    pub new: Outlook<A>,
    pub old: Outlook<A>,
}

impl<A: Allocator + Copy> Request<A> for CompareRequest {
    type Texts = PlansRisks<A>;

    type Answer = Compared<A>;

    ghost fits = { HavePlansRisks };

    ghost answers = { CompareAnswers };

    ghost prints = { λ _. ComparePrints };

    ghost ends = { λ _. CompareEnds };

    fn answer(&self, alloc: A, texts: Self::Texts) -> Result<Self::Answer, CommandFault> {
        let only = named_only(&self.risks);
        let network = &texts.plans.joined.new;
        let risks = &texts.risks;
        let new = outlook_of(alloc, network, risks, only, &texts.plans.new.plan)?;
        let old = outlook_of(alloc, network, risks, only, &texts.plans.old.plan)?;
        let outages = outages_of(alloc, network, risks, only)?;
        Ok(Compared {
            texts,
            outages,
            new,
            old,
        })
    }

    fn print<W: Sink>(&self, answer: &Self::Answer, out: &mut W) -> Result<(), WriteFault> {
        let comparison = comparison_of(answer);
        write_comparison(&comparison, &answer.new.grade, &answer.old.grade, out)
    }

    fn end(&self, _alloc: A, answer: Self::Answer) -> Result<Ending<A>, CommandFault> {
        let comparison = comparison_of(&answer);
        let against = is_against(&comparison, answer.new.grade.plan, answer.old.grade.plan);
        Ok(Ending::of(u8::from(against)))
    }
}

/// The grade of a plan, and what its outages come to, if it has one, with those groups of the named
/// risks that it has.
pub(crate) fn outlook_of<A: Allocator + Copy>(
    alloc: A,
    network: &Plan<A>,
    risks: &Risks<A>,
    only: bool,
    plan: &Plan<A>,
) -> Result<Outlook<A>, NoMemory>
    requires { AreRisksFor network.now risks.now }
    ensures { IfOk result (IsOutlookOf network.now risks.now only plan.now) }
{
    plan.rules();
    let risks = risks.over(alloc, network, plan)?;
    let grade = grade(alloc, plan)?;
    let outcomes = outcomes_of(alloc, plan, &grade, &risks, only)?;
    Ok(Outlook { grade, outcomes })
}

/// Two plans with their outages, side by side.
pub(crate) fn beside<'a, A: Allocator>(
    network: &'a Plan<A>,
    risks: &'a Risks<A>,
    outages: &'a [Outage],
    new: Side<'a, A>,
    old: Side<'a, A>,
) -> Comparison<'a, A>
    ensures { AreBeside network.now risks.now outages.now new.entry old.entry result }
{
    Comparison {
        network,
        risks,
        outages,
        new,
        old,
    }
}

/// Both plans, as they are written.
fn comparison_of<A: Allocator>(answer: &Compared<A>) -> Comparison<'_, A>
    requires new { AllByRecursion (λ t. AreInOrder t.cuts.items) answer.now.new.outcomes.items }
    requires old { AllByRecursion (λ t. AreInOrder t.cuts.items) answer.now.old.outcomes.items }
    ensures { IsWrittenOf answer.now result }
{
    let plans = &answer.texts.plans;
    Comparison {
        network: &plans.joined.new,
        risks: &answer.texts.risks,
        outages: answer.outages.as_slice(),
        new: Side::new(&plans.new.plan, answer.new.outcomes.as_slice()),
        old: Side::new(&plans.old.plan, answer.old.outcomes.as_slice()),
    }
}
