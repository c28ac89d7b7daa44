// A plan of which some groups are down.
ghost use Rattle.std.specs.Prelude.{◌≡◌, IfOk};
ghost use Rattle.tx_plan.specs.Routes.{route_list};
ghost use Rattle.tx_trace.specs.Left.{groups_left, routes_left, plan_left};

use std::alloc::Allocator;
use tx_plan::{CodeId, ExchangeId, GroupId, GroupList, Pair, Plan, Routes, bars_of};
use tx_text::NoMemory;

/// The plan without these groups in its lists, and without the lists that have no others.
pub fn plan_left<A: Allocator + Copy>(
    alloc: A,
    plan: Plan<A>,
    down: &[GroupId],
) -> Result<Plan<A>, NoMemory>
    ensures { IfOk result (λ left. left ≡ plan_left plan down.now) }
{
    plan.rules();
    let routes = routes_left(alloc, &plan, down)?;
    let bars = bars_of(alloc, &plan)?;
    Ok(plan.rerouted(routes, bars))
}

/// The groups of a list that are not down.
fn groups_left<A: Allocator>(
    plan: &Plan<A>,
    down: &[GroupId],
    exchange: ExchangeId,
    code: CodeId,
) -> GroupList
    ensures { result.items ≡ groups_left down.now (route_list plan.now exchange code) }
{
    let mut left = GroupList::new();
    let list = plan.list(exchange, code);
    for group in list {
        if !down.contains(group) {
            left.push(*group);
        }
    }
    left
}

/// The routes of which a group is left.
fn routes_left<A: Allocator + Copy>(
    alloc: A,
    plan: &Plan<A>,
    down: &[GroupId],
) -> Result<Routes<A>, NoMemory>
    ensures { IfOk result (λ routes. routes ≡ routes_left down.now plan.now.routes) }
{
    let mut routes = Routes::new(alloc);
    for index in 0..plan.routes() {
        match plan.route_at(index) {
            Some((exchange, code)) => {
                let left = groups_left(plan, down, exchange, code);
                if !left.is_empty() {
                    routes.add(Pair { exchange, code }, left)?;
                }
            }
            None => unreachable!(),
        }
    }
    Ok(routes)
}
