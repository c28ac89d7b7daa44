// The network of a plan without some of its groups.
ghost use Rattle.std.specs.Prelude.{◌≡◌, IfOk, IfErr, IsOk, OnOk};
ghost use Rattle.tx_plan.specs.Plan.{no_plan};
ghost use Rattle.tx_plan.specs.declared.refusal.PlanRefusal.TheVariants.{NoMemory};
ghost use Rattle.tx_down.specs.Without.{is_one_of, network_without};
ghost use Rattle.tx_down.specs.inner.Stages.{its_exchanges, its_codes, its_ranges};

use std::alloc::Allocator;
use tx_plan::{CodeId, ExchangeId, GroupId, Plan, PlanBuilder, PlanRefusal};

/// The network of a plan without these groups.
pub(crate) fn network_without<A: Allocator + Copy>(
    alloc: A,
    plan: &Plan<A>,
    down: &[GroupId],
) -> Result<Plan<A>, PlanRefusal>
    ensures left { IfOk result (λ w. w ≡ network_without plan.now down.now) }
    ensures memory { IfErr result (λ e. e ≡ NoMemory) }
{
    let mut builder = PlanBuilder::new(alloc);
    match add_network(plan, down, &mut builder) {
        Ok(()) => Ok(builder.finish()),
        Err(error) => {
            drop(builder);
            Err(error)
        }
    }
}

/// Declares it, list by list.
fn add_network<A: Allocator>(
    from: &Plan<A>,
    down: &[GroupId],
    builder: &mut PlanBuilder<A>,
) -> Result<(), PlanRefusal>
    requires { builder.old ≡ no_plan }
    ensures added { OnOk result (builder.new ≡ network_without from.now down.now) }
    ensures memory { IfErr result (λ e. e ≡ NoMemory) }
{
    add_exchanges(from, builder)?;
    add_codes(from, builder)?;
    add_ranges(from, builder)?;
    add_groups(from, down, builder)
}

/// Declares the exchanges.
fn add_exchanges<A: Allocator>(
    from: &Plan<A>,
    builder: &mut PlanBuilder<A>,
) -> Result<(), PlanRefusal>
    requires { builder.old ≡ no_plan }
    ensures added { OnOk result (builder.new ≡ its_exchanges from.now) }
    ensures memory { IfErr result (λ e. e ≡ NoMemory) }
{
    for index in 0..from.exchanges() {
        builder.exchange(from.exchange_name(ExchangeId::of(index)))?;
    }
    Ok(())
}

/// Declares the codes.
fn add_codes<A: Allocator>(from: &Plan<A>, builder: &mut PlanBuilder<A>) -> Result<(), PlanRefusal>
    requires { builder.old ≡ its_exchanges from.now }
    ensures added { OnOk result (builder.new ≡ its_codes from.now) }
    ensures memory { IfErr result (λ e. e ≡ NoMemory) }
{
    for index in 0..from.codes() {
        let code = CodeId::of(index);
        let home = from.exchange_name(from.home(code));
        builder.code(from.code_figures(code), home)?;
    }
    Ok(())
}

/// Declares the ranges.
fn add_ranges<A: Allocator>(from: &Plan<A>, builder: &mut PlanBuilder<A>) -> Result<(), PlanRefusal>
    requires { builder.old ≡ its_codes from.now }
    ensures added { OnOk result (builder.new ≡ its_ranges from.now) }
    ensures memory { IfErr result (λ e. e ≡ NoMemory) }
{
    for index in 0..from.ranges() {
        match from.range_at(index) {
            Some(range) => {
                let figures = from.code_figures(range.code);
                builder.lines(figures, range.low.bytes(), range.high.bytes())?;
            }
            None => unreachable!(),
        }
    }
    Ok(())
}

/// Declares the groups that are not down.
fn add_groups<A: Allocator>(
    from: &Plan<A>,
    down: &[GroupId],
    builder: &mut PlanBuilder<A>,
) -> Result<(), PlanRefusal>
    requires { builder.old ≡ its_ranges from.now }
    ensures added { OnOk result (builder.new ≡ network_without from.now down.now) }
    ensures memory { IfErr result (λ e. e ≡ NoMemory) }
{
    for index in 0..from.groups() {
        let group = GroupId::of(index);
        let name = from.group_name(group);
        if !is_one_of(from, down, name) {
            let (a, b) = from.ends(group);
            let (a, b) = (from.exchange_name(a), from.exchange_name(b));
            let direction = from.direction(group);
            let count = from.group_count(group);
            builder.group(name, a, b, direction, count)?;
        }
    }
    Ok(())
}

/// Whether one of these groups has a name.
fn is_one_of<A: Allocator>(plan: &Plan<A>, down: &[GroupId], name: &[u8]) -> bool
    ensures { result ≡ is_one_of plan.now down.now name.now }
{
    down.iter().any(|group| plan.group_name(*group) == name)
}
