// A plan without some groups of its network.
ghost use Rattle.std.specs.Prelude.{◌≡◌, IfOk, IfErr};
ghost use Rattle.tx_plan.specs.declared.refusal.PlanRefusal.TheVariants.{NoMemory as OutOfMemory};
ghost use Rattle.tx_plan.specs.Routes.{route_list};
ghost use Rattle.tx_down.specs.Without.{list_over, routes_over, plan_without};

use crate::network::network_without;
use std::alloc::Allocator;
use tx_plan::{CodeId, ExchangeId, GroupId, GroupList, Pair, Plan, PlanRefusal, Routes, bars_of};
use tx_text::NoMemory;

/// The plan without these groups, neither in its network nor in its lists, and without the lists
/// that have no others.
pub fn plan_without<A: Allocator + Copy>(
    alloc: A,
    plan: &Plan<A>,
    down: &[GroupId],
) -> Result<Plan<A>, PlanRefusal>
    ensures left { IfOk result (λ w. w ≡ plan_without plan.now down.now) }
    ensures memory { IfErr result (λ e. e ≡ OutOfMemory) }
{
    plan.rules();
    let bars = bars_of(alloc, plan)?;
    let network = network_without(alloc, plan, down)?;
    match routes_over(alloc, &network, plan) {
        Ok(routes) => Ok(network.rerouted(routes, bars)),
        Err(error) => {
            drop(network);
            Err(PlanRefusal::from(error))
        }
    }
}

/// The routes of which the network has a group.
fn routes_over<A: Allocator + Copy>(
    alloc: A,
    network: &Plan<A>,
    plan: &Plan<A>,
) -> Result<Routes<A>, NoMemory>
    ensures { IfOk result (λ routes. routes ≡ routes_over network.now plan.now) }
{
    let mut routes = Routes::new(alloc);
    for index in 0..plan.routes() {
        match plan.route_at(index) {
            Some((exchange, code)) => {
                let list = list_over(network, plan, exchange, code);
                if !list.is_empty() {
                    routes.add(Pair { exchange, code }, list)?;
                }
            }
            None => unreachable!(),
        }
    }
    Ok(routes)
}

/// The groups of a list that the network has, as they are known there.
fn list_over<A: Allocator>(
    network: &Plan<A>,
    plan: &Plan<A>,
    exchange: ExchangeId,
    code: CodeId,
) -> GroupList
    ensures { result.items ≡ list_over network.now plan.now (route_list plan.now exchange code) }
{
    let mut list = GroupList::new();
    let tried = plan.list(exchange, code);
    for group in tried {
        match network.group_named(plan.group_name(*group)) {
            Some(known) => list.push(known),
            None => {}
        }
    }
    list
}
