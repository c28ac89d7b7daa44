// The joined network of two plans.
ghost use Rattle.std.specs.Prelude.{◌≡◌, IfOk, IfErr, IsOk, OnOk};
ghost use Rattle.tx_plan.specs.Plan.{no_plan};
ghost use Rattle.tx_plan.specs.Rules.{IsPlan};
ghost use Rattle.tx_join.specs.declared.refusal.JoinRefusal.TheVariants.{NoMemory};
ghost use Rattle.tx_join.specs.Joined.{joined_network};
ghost use Rattle.tx_join.specs.Laws.{CanBeJoined};
ghost use Rattle.tx_join.specs.inner.Declared.{with_exchanges, with_codes, with_ranges, with_groups, KnowsExchanges, KnowsCodes, IsTaken};

use crate::naming::{circuits_named, has_code, has_exchange, has_group};
use crate::refusal::JoinRefusal;
use std::alloc::Allocator;
use tx_plan::{CodeId, ExchangeId, GroupId, Plan, PlanBuilder, PlanRefusal};

/// The joined network of two plans: what the old plan has, and then what the new one has more.
pub(crate) fn joined_network<A: Allocator + Copy>(
    alloc: A,
    old: &Plan<A>,
    new: &Plan<A>,
) -> Result<Plan<A>, JoinRefusal>
    requires { CanBeJoined old.now new.now }
    ensures plan { IfOk result (λ p. p ≡ joined_network old.now new.now) }
    ensures memory { IfErr result (λ e. e ≡ NoMemory) }
{
    let mut builder = PlanBuilder::new(alloc);
    match add_network(old, new, &mut builder) {
        Ok(()) => Ok(builder.finish()),
        Err(refusal) => {
            drop(builder);
            Err(refusal)
        }
    }
}

/// Declares the network, list by list.
fn add_network<A: Allocator>(
    old: &Plan<A>,
    new: &Plan<A>,
    builder: &mut PlanBuilder<A>,
) -> Result<(), JoinRefusal>
    requires plans { CanBeJoined old.now new.now }
    requires none { builder.old ≡ no_plan }
    ensures added { OnOk result (builder.new ≡ joined_network old.now new.now) }
    ensures memory { IfErr result (λ e. e ≡ NoMemory) }
{
    add_exchanges(old, builder)?;
    add_exchanges(new, builder)?;
    add_codes(old, builder)?;
    add_codes(new, builder)?;
    add_ranges(old, builder)?;
    add_groups(old, new, builder)?;
    add_groups(new, old, builder)?;
    Ok(())
}

/// Declares the exchanges of a plan that are not declared yet.
fn add_exchanges<A: Allocator>(
    from: &Plan<A>,
    builder: &mut PlanBuilder<A>,
) -> Result<(), JoinRefusal>
    requires rules { IsPlan (with_exchanges builder.old from.now) }
    ensures added { OnOk result (builder.new ≡ with_exchanges builder.old from.now) }
    ensures memory { IfErr result (λ e. e ≡ NoMemory) }
{
    for index in 0..from.exchanges() {
        let name = from.exchange_name(ExchangeId::of(index));
        if !has_exchange(builder.plan(), name) {
            taken(builder.exchange(name))?;
        }
    }
    Ok(())
}

/// Declares the codes.
fn add_codes<A: Allocator>(from: &Plan<A>, builder: &mut PlanBuilder<A>) -> Result<(), JoinRefusal>
    requires rules { IsPlan (with_codes builder.old from.now) }
    requires homes { KnowsExchanges builder.old from.now }
    ensures added { OnOk result (builder.new ≡ with_codes builder.old from.now) }
    ensures memory { IfErr result (λ e. e ≡ NoMemory) }
{
    for index in 0..from.codes() {
        let code = CodeId::of(index);
        let figures = from.code_figures(code);
        if !has_code(builder.plan(), figures) {
            let home = from.exchange_name(from.home(code));
            taken(builder.code(figures, home))?;
        }
    }
    Ok(())
}

/// Declares the ranges.
fn add_ranges<A: Allocator>(from: &Plan<A>, builder: &mut PlanBuilder<A>) -> Result<(), JoinRefusal>
    requires rules { IsPlan (with_ranges builder.old from.now) }
    requires codes { KnowsCodes builder.old from.now }
    ensures added { OnOk result (builder.new ≡ with_ranges builder.old from.now) }
    ensures memory { IfErr result (λ e. e ≡ NoMemory) }
{
    for index in 0..from.ranges() {
        match from.range_at(index) {
            Some(range) => {
                let figures = from.code_figures(range.code);
                taken(builder.lines(figures, range.low.bytes(), range.high.bytes()))?;
            }
            None => unreachable!(),
        }
    }
    Ok(())
}

/// Declares the groups that are not declared yet, with as many circuits as either plan gives them.
fn add_groups<A: Allocator>(
    from: &Plan<A>,
    other: &Plan<A>,
    builder: &mut PlanBuilder<A>,
) -> Result<(), JoinRefusal>
    requires rules { IsPlan (with_groups builder.old from.now other.now) }
    requires ends { KnowsExchanges builder.old from.now }
    ensures added { OnOk result (builder.new ≡ with_groups builder.old from.now other.now) }
    ensures memory { IfErr result (λ e. e ≡ NoMemory) }
{
    for index in 0..from.groups() {
        let group = GroupId::of(index);
        let name = from.group_name(group);
        if !has_group(builder.plan(), name) {
            let (a, b) = from.ends(group);
            let count = from.group_count(group).max(circuits_named(other, name));
            let direction = from.direction(group);
            let (a, b) = (from.exchange_name(a), from.exchange_name(b));
            taken(builder.group(name, a, b, direction, count))?;
        }
    }
    Ok(())
}

/// A declaration that nothing but lack of memory refuses.
fn taken(declared: Result<(), PlanRefusal>) -> Result<(), JoinRefusal>
    requires { IsTaken declared }
    ensures ok { OnOk result (IsOk declared) }
    ensures memory { IfErr result (λ e. e ≡ NoMemory) }
{
    match declared {
        Ok(()) => Ok(()),
        Err(PlanRefusal::NoMemory) => Err(JoinRefusal::NoMemory),
        Err(_) => unreachable!(),
    }
}
