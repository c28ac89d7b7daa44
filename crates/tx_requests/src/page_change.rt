// The change from an old plan that a page shows.
ghost use Rattle.std.specs.Prelude.{◌≡◌, IfOk, IfErr};
ghost use Rattle.std.specs.List.{AllByRecursion};
ghost use Rattle.tx_files.specs.TwoPlans.{IsNoJoinOf};
ghost use Rattle.tx_risk.specs.Compared.{AreInOrder};
ghost use Rattle.tx_risk.specs.NamedRisks.{AreRisksFor};
ghost use Rattle.tx_requests.specs.Page.{if_both, IsChangeOf, IsChangeIfAny, IsNoChange, IsFound, AreCounted};

use crate::compare::{Outlook, beside, outlook_of};
use crate::page_found::Found;
use std::alloc::{Allocator, Global};
use tx_files::{CommandFault, PageTexts, PlanText, joined_of};
use tx_order::{Switching, order};
use tx_plan::{Limits, Plan};
use tx_rank::Bounds;
use tx_risk::{Risks, Side, outages_of};
use tx_risk_report::{count_better_outages, count_worse_outages};
use tx_text::NoMemory;

/// What is found of the change of a plan into another one.
#[derive(Drop)]
pub struct FoundChange<A: Allocator = Global> {
    /// The order of switching over their joined network, or what is wrong.
    pub switching: Switching<A>,
    /// What the old plan comes to.
    pub outlook: Outlook<A>,
    /// After how many outages somebody is worse off, and after how many better, if both plans have a
    /// grade.
    pub worse: Option<u64>,
    pub better: Option<u64>,
}

/// What is found of the change from an old plan, if there is one.
pub(crate) fn change_of<A: Allocator + Copy>(
    alloc: A,
    texts: &PageTexts<A>,
    found: &Found<A>,
    limits: Limits,
) -> Result<Option<FoundChange<A>>, CommandFault>
    requires risks { AreRisksFor texts.now.plan.plan texts.now.risks }
    requires found { IsFound texts.now.plan.plan limits.limit limits.spare texts.now.risks found.now }
    ensures right { IfOk result (IsChangeIfAny texts.now.old texts.now.plan.plan limits.limit
        limits.spare texts.now.risks found.now) }
    ensures refused { IfErr result (IsNoChange texts.now.old texts.now.plan) }
{
    match &texts.old {
        Some(old) => {
            let change = change_between(alloc, old, &texts.plan, &texts.risks, found, limits)?;
            Ok(Some(change))
        }
        None => Ok(None),
    }
}

/// What is found of the change of a plan into another one, if they have a joined network.
fn change_between<A: Allocator + Copy>(
    alloc: A,
    old: &PlanText<A>,
    new: &PlanText<A>,
    risks: &Risks<A>,
    found: &Found<A>,
    limits: Limits,
) -> Result<FoundChange<A>, CommandFault>
    requires risks { AreRisksFor new.now.plan risks.now }
    requires found { IsFound new.now.plan limits.limit limits.spare risks.now found.now }
    ensures right { IfOk result (IsChangeOf old.now.plan new.now.plan limits.limit limits.spare
        risks.now found.now) }
    ensures refused { IfErr result (IsNoJoinOf old.now new.now) }
{
    let joined = joined_of(alloc, old, new)?;
    let switching = order(alloc, joined, limits)?;
    let (_, network) = switching.plans();
    let outlook = outlook_of(alloc, &new.plan, risks, false, &old.plan)?;
    let (worse, better) = compare(alloc, network, risks, &old.plan, &outlook, &new.plan, found)?;
    Ok(FoundChange {
        switching,
        outlook,
        worse,
        better,
    })
}

/// A number, if both plans have a grade.
fn if_both(old: Option<Bounds>, new: Option<Bounds>, number: usize) -> Option<u64>
    ensures { result ≡ if_both old new number }
{
    match (old, new) {
        (Some(_), Some(_)) => Some(number as u64),
        (None, _) | (Some(_), None) => None,
    }
}

/// After how many outages somebody is worse off in the new plan, and after how many better, if both
/// plans have a grade.
fn compare<A: Allocator + Copy>(
    alloc: A,
    network: &Plan<A>,
    risks: &Risks<A>,
    old: &Plan<A>,
    before: &Outlook<A>,
    new: &Plan<A>,
    after: &Found<A>,
) -> Result<(Option<u64>, Option<u64>), NoMemory>
    requires old { AllByRecursion (λ t. AreInOrder t.cuts.items) before.now.outcomes.items }
    requires new { AllByRecursion (λ t. AreInOrder t.cuts.items) after.now.outcomes.items }
    ensures { IfOk result (λ n. AreCounted old.now new.now network.now risks.now before.now after.now
        n.0 n.1) }
{
    let outages = outages_of(alloc, network, risks, false)?;
    let (was, is) = (before.grade.plan, after.grade.plan);
    let new = Side::new(new, after.outcomes.as_slice());
    let old = Side::new(old, before.outcomes.as_slice());
    let comparison = beside(network, risks, outages.as_slice(), new, old);
    let worse = if_both(was, is, count_worse_outages(&comparison));
    let better = if_both(was, is, count_better_outages(&comparison));
    Ok((worse, better))
}
