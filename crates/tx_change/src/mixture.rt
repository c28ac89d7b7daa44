// The mixture that shows what is wrong with a change.
ghost use Rattle.std.specs.Prelude.{◌≡◌, IfOk};
ghost use Rattle.std.specs.List.{AllByRecursion};
ghost use Rattle.std.specs.Option.{option_map};
ghost use Rattle.tx_plan.specs.Mixtures.{SameNetwork};
ghost use Rattle.tx_rank.specs.Findings.{IsTrueOf};
ghost use Rattle.tx_change.specs.Shown.{IsShown};
ghost use Rattle.tx_change.specs.MixtureShown.{has_walk, first_walked, ShowsMixture, MixtureAnswer, NewPlanAnswer};

use crate::showing::shown;
use std::alloc::{Allocator, Global};
use tx_audit::counter;
use tx_machine::Event;
use tx_plan::{Limits, Plan};
use tx_rank::Finding;
use tx_text::NoMemory;

/// A mixture, and the events that show what is wrong with it, if there are some.
#[derive(Drop)]
pub struct ShownMixture<A: Allocator = Global> {
    /// The mixture.
    pub plan: Plan<A>,
    /// The events.
    pub events: Option<Vec<Event, A>>,
}

/// The mixture that the first finding with a walk shows, and the events that show this finding
/// there: none of them is refused, and they break what a sound plan keeps. Takes the old plan
/// apart. `None` where no finding has a walk. `Err` means out of memory.
pub fn first_mixture<A: Allocator + Copy>(
    alloc: A,
    old: Plan<A>,
    new: &Plan<A>,
    findings: &[Finding<A>],
    limits: Limits,
) -> Result<Option<ShownMixture<A>>, NoMemory>
    requires network { SameNetwork old new.now }
    requires shown { AllByRecursion (IsShown old new.now limits.limit limits.spare) findings.now }
    ensures { IfOk result (MixtureAnswer old new.now limits.limit limits.spare findings.now) }
{
    match first_walked(findings) {
        Some(finding) => {
            let mixture = show_mixture(alloc, old, new, finding, limits)?;
            Ok(Some(mixture))
        }
        None => Ok(None),
    }
}

/// The mixture that a finding shows, and its events.
fn show_mixture<A: Allocator + Copy>(
    alloc: A,
    old: Plan<A>,
    new: &Plan<A>,
    finding: &Finding<A>,
    limits: Limits,
) -> Result<ShownMixture<A>, NoMemory>
    requires network { SameNetwork old new.now }
    requires shown { IsShown old new.now limits.limit limits.spare finding.now }
    ensures { IfOk result (λ m. ShowsMixture old new.now limits.limit limits.spare finding.now
        m.plan (option_map (λ v. v.items) m.events)) }
{
    let plan = shown(alloc, old, new, limits.spare, finding)?;
    let events = counter(alloc, &plan, finding, limits.limit, limits.spare)?;
    Ok(ShownMixture { plan, events })
}

/// The new plan as it is, and the events that show there the first of its findings that has a walk.
/// `None` where no finding has a walk. `Err` means out of memory.
pub fn new_plan_shown<A: Allocator + Copy>(
    alloc: A,
    new: Plan<A>,
    findings: &[Finding<A>],
    limits: Limits,
) -> Result<Option<ShownMixture<A>>, NoMemory>
    requires { AllByRecursion (IsTrueOf new limits.limit limits.spare) findings.now }
    ensures { IfOk result (NewPlanAnswer new limits.limit limits.spare findings.now) }
{
    match first_walked(findings) {
        Some(finding) => {
            let events = counter(alloc, &new, finding, limits.limit, limits.spare)?;
            Ok(Some(ShownMixture { plan: new, events }))
        }
        None => Ok(None),
    }
}

/// The first finding that has a walk.
fn first_walked<A: Allocator>(findings: &[Finding<A>]) -> Option<&Finding<A>>
    ensures { option_map (λ f. f.now) result ≡ first_walked findings.now }
{
    findings.iter().find(|finding| has_walk(finding))
}

/// Whether a finding has a walk.
fn has_walk<A: Allocator>(finding: &Finding<A>) -> bool
    ensures { result ≡ has_walk finding.now }
{
    match finding {
        Finding::Ambiguous(_, _) => false,
        Finding::Loop(_, _) | Finding::Short(_, _) | Finding::Long(_, _) => true,
    }
}
