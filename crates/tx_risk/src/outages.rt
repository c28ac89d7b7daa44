// What the outages of a plan cut off.
ghost use Rattle.std.specs.Prelude.{◌≡◌, ◌<◌, ◌++◌, ℕ, map, length, true, IfOk, OnOk};
ghost use Rattle.std.specs.List.{range_with_len};
ghost use Rattle.tx_plan.specs.Certified.{IsCertified};
ghost use Rattle.tx_cert.specs.Certificate.{ranks_of};
ghost use Rattle.tx_rank.specs.Judged.{AreOrigins};
ghost use Rattle.tx_risk.specs.NamedRisks.{AreWithin};
ghost use Rattle.tx_risk.specs.declared.outage.Outage.TheVariants.{Group, Exchange, Named};
ghost use Rattle.tx_risk.specs.Outages.{risk_of, all_outages, IsOutcome, AreOutcomes};
ghost use Rattle.tx_risk.specs.inner.Marked.{marked};
ghost use Rattle.tx_risk.specs.inner.Orders.{AreOrders};

use crate::cut::Outcome;
use crate::cutting::add_cuts;
use crate::hits::ends_of;
use crate::left::Left;
use crate::orders::orders_of;
use crate::outage::Outage;
use crate::risks::Risks;
use std::alloc::Allocator;
use tx_cert::Cert;
use tx_plan::{CodeId, ExchangeId, GroupId, Plan};
use tx_rank::origins_of;
use tx_text::NoMemory;

/// Whether a group goes with an outage.
pub fn goes_with<A: Allocator>(
    plan: &Plan<A>,
    risks: &Risks<A>,
    outage: &Outage,
    group: GroupId,
) -> bool
    ensures { result ≡ risk_of plan.now risks.now outage.now group }
{
    match outage {
        Outage::Group(gone) => group == *gone,
        Outage::Exchange(exchange) => plan.other_end(group, *exchange).is_some(),
        Outage::Named(index) => risks.groups(*index).contains(&group),
    }
}

/// Marks the groups that go with an outage.
fn marks_of<A: Allocator + Copy>(
    alloc: A,
    plan: &Plan<A>,
    risks: &Risks<A>,
    outage: &Outage,
) -> Result<Vec<bool, A>, NoMemory>
    requires { (g : ℕ) → risk_of plan.now risks.now outage.now g ≡ true
        → g < length plan.now.groups }
    ensures { IfOk result (λ marks. (g : ℕ)
        → marked marks.items g ≡ risk_of plan.now risks.now outage.now g) }
{
    let mut marks = Vec::with_capacity(alloc, plan.groups())?;
    for index in 0..plan.groups() {
        marks.push_reserved(goes_with(plan, risks, outage, GroupId::of(index)));
    }
    Ok(marks)
}

/// Whom an outage cuts off, code by code.
fn outcome_of<A: Allocator + Copy>(
    alloc: A,
    plan: &Plan<A>,
    ranks: &Cert<A>,
    risks: &Risks<A>,
    orders: &[Vec<ExchangeId, A>],
    origins: &[bool],
    outage: Outage,
) -> Result<Outcome<A>, NoMemory>
    requires certified { (limit : ℕ) × (spare : ℕ)
        × IsCertified plan.now (ranks_of ranks.now) limit spare }
    requires orders { AreOrders plan.now (ranks_of ranks.now) orders.now }
    requires origins { AreOrigins plan.now origins.now }
    requires known { (g : ℕ) → risk_of plan.now risks.now outage g ≡ true
        → g < length plan.now.groups }
    ensures outage { IfOk result (λ o. o.outage ≡ outage) }
    ensures outcome { IfOk result (IsOutcome plan.now risks.now) }
{
    let gone = marks_of(alloc, plan, risks, &outage)?;
    let ends = ends_of(alloc, plan, &gone)?;
    let mut cuts = Vec::new(alloc);
    let mut legs = Vec::new(alloc);
    for index in 0..plan.codes() {
        let left = Left {
            plan,
            gone: &gone,
            code: CodeId::of(index),
        };
        add_cuts(
            alloc,
            &left,
            ranks,
            &orders[index],
            &ends,
            origins,
            &outage,
            &mut cuts,
            &mut legs,
        )?;
    }
    Ok(Outcome { outage, cuts, legs })
}

/// Adds the named risks.
fn add_named<A: Allocator>(risks: &Risks<A>, outages: &mut Vec<Outage, A>) -> Result<(), NoMemory>
    ensures { OnOk result (outages.new.items ≡ outages.old.items
        ++ map Named (range_with_len 0 (length risks.now))) }
{
    for index in 0..risks.len() {
        outages.push(Outage::Named(index))?;
    }
    Ok(())
}

/// Adds the groups.
fn add_groups<A: Allocator>(plan: &Plan<A>, outages: &mut Vec<Outage, A>) -> Result<(), NoMemory>
    ensures { OnOk result (outages.new.items ≡ outages.old.items
        ++ map Group (range_with_len 0 (length plan.now.groups))) }
{
    for index in 0..plan.groups() {
        outages.push(Outage::Group(GroupId::of(index)))?;
    }
    Ok(())
}

/// Adds the exchanges.
fn add_exchanges<A: Allocator>(plan: &Plan<A>, outages: &mut Vec<Outage, A>) -> Result<(), NoMemory>
    ensures { OnOk result (outages.new.items ≡ outages.old.items
        ++ map Exchange (range_with_len 0 (length plan.now.exchanges))) }
{
    for index in 0..plan.exchanges() {
        outages.push(Outage::Exchange(ExchangeId::of(index)))?;
    }
    Ok(())
}

/// All outages, in order, or the named risks alone.
pub fn outages_of<A: Allocator + Copy>(
    alloc: A,
    plan: &Plan<A>,
    risks: &Risks<A>,
    named_only: bool,
) -> Result<Vec<Outage, A>, NoMemory>
    ensures { IfOk result (λ all. all.items ≡ all_outages plan.now risks.now named_only) }
{
    let mut outages = Vec::new(alloc);
    add_named(risks, &mut outages)?;
    if named_only {
        return Ok(outages);
    }
    add_groups(plan, &mut outages)?;
    add_exchanges(plan, &mut outages)?;
    Ok(outages)
}

/// What each named risk, each group and each exchange cuts off if it fails alone, in a plan that
/// the ranks certify; or each named risk alone.
pub fn all_outcomes<A: Allocator + Copy>(
    alloc: A,
    plan: &Plan<A>,
    ranks: &Cert<A>,
    risks: &Risks<A>,
    named_only: bool,
) -> Result<Vec<Outcome<A>, A>, NoMemory>
    requires certified { (limit : ℕ) × (spare : ℕ)
        × IsCertified plan.now (ranks_of ranks.now) limit spare }
    requires risks { AreWithin plan.now risks.now }
    ensures { IfOk result (λ all. AreOutcomes plan.now risks.now named_only all.items) }
{
    let orders = orders_of(alloc, plan, ranks)?;
    let origins = origins_of(alloc, plan)?;
    let outages = outages_of(alloc, plan, risks, named_only)?;
    let mut outcomes = Vec::new(alloc);
    for i in 0..outages.len() {
        let outage = outages[i];
        let outcome = outcome_of(alloc, plan, ranks, risks, &orders, &origins, outage)?;
        outcomes.push(outcome)?;
    }
    Ok(outcomes)
}
