// Outages of a plan that has a grade.
ghost use Rattle.std.specs.Prelude.{◌≡◌, ◌≢◌, ◌↔◌, ℕ, [], None, IfOk};
ghost use Rattle.std.specs.List.{AllByRecursion};
ghost use Rattle.tx_rank.specs.Findings.{IsTrueOf};
ghost use Rattle.tx_rank.specs.Grades.{AreCodeGrades, AreUnmended};
ghost use Rattle.tx_risk.specs.NamedRisks.{AreRisksFor};
ghost use Rattle.tx_risk.specs.Outages.{AreOutcomes};
ghost use Rattle.tx_risk.specs.Survivals.{HasGrade, AreTried, OnTried, OnUngraded};

use crate::cut::Outcome;
use crate::outages::all_outcomes;
use crate::risks::Risks;
use std::alloc::{Allocator, Global};
use tx_plan::Plan;
use tx_rank::{Grade, grade};
use tx_text::NoMemory;

/// What the outages of a plan cut off, or why the plan has no grade.
#[derive(Drop)]
pub enum Survival<A: Allocator = Global> {
    /// What each outage cuts off, in order: the named risks, the groups, the exchanges.
    Tried(Vec<Outcome<A>, A>),
    /// The plan has no grade: the grades of its codes, and what is wrong with it, whatever limit
    /// and spare number it is to have.
    Ungraded(Grade<A>),
}

/// Returns what each named risk, each group and each exchange cuts off if it fails alone, or each
/// named risk alone; or why the plan has no grade. `Err` means out of memory.
pub fn survive<A: Allocator + Copy>(
    alloc: A,
    plan: &Plan<A>,
    risks: &Risks<A>,
    named_only: bool,
) -> Result<Survival<A>, NoMemory>
    requires { AreRisksFor plan.now risks.now }

    // All outages are tried exactly where the plan has a grade.
    ensures tried { IfOk result (λ s. AreTried s ↔ HasGrade plan.now) }
    ensures outcomes { IfOk result (OnTried (AreOutcomes plan.now risks.now named_only)) }

    ensures ungraded { IfOk result (OnUngraded (λ g. g.plan ≡ None)) }
    ensures codes { IfOk result (OnUngraded (λ g. AreCodeGrades plan.now g.codes.items)) }
    ensures fails { IfOk result (OnUngraded (λ g. g.findings.items ≢ [])) }
    ensures each { IfOk result (OnUngraded (λ g. (limit spare : ℕ)
        → AllByRecursion (IsTrueOf plan.now limit spare) g.findings.items)) }
    ensures listed { IfOk result (OnUngraded (λ g. AreUnmended plan.now g.findings.items)) }
{
    let grade = grade(alloc, plan)?;
    match grade.plan {
        Some(_) => {
            let outcomes = all_outcomes(alloc, plan, &grade.ranks, risks, named_only)?;
            Ok(Survival::Tried(outcomes))
        },
        None => Ok(Survival::Ungraded(grade)),
    }
}
