// The routes of all full lists.
ghost use Rattle.std.specs.Prelude.{◌≡◌, ◌<◌, ◌+◌, ◌++◌, ◌==◌, ◌&&◌, [], false, length, IfOk, OnOk};
ghost use Rattle.std.specs.List.{list_any, flat_map};
ghost use Rattle.tx_mend.specs.Mended.{route_if};
ghost use Rattle.tx_mend.specs.inner.Full.{full_routes};
ghost use Rattle.tx_mend.specs.inner.Pairs.{full_route, present_pairs, routes_below};

use crate::basis::Basis;
use crate::filling::full_list;
use std::alloc::Allocator;
use tx_plan::{CodeId, ExchangeId, GroupList, Pair, Plan, Routes};
use tx_text::NoMemory;

/// Adds a route, unless it has no groups.
pub fn add_route<A: Allocator>(
    routes: &mut Routes<A>,
    exchange: ExchangeId,
    code: CodeId,
    list: GroupList,
) -> Result<(), NoMemory>
    requires { list_any (λ r. (r.exchange == exchange) && (r.code == code)) routes.old
        ≡ false }
    ensures { OnOk result (routes.new ≡ routes.old ++ route_if (exchange, code) list.items) }
{
    if list.is_empty() {
        return Ok(());
    }
    routes.add(Pair { exchange, code }, list)
}

/// Adds the full lists of the pairs that have a route, in order of the routes.
fn add_present<A: Allocator>(basis: &Basis<'_, A>, routes: &mut Routes<A>) -> Result<(), NoMemory>
    requires { routes.old ≡ [] }
    ensures { OnOk result (routes.new
        ≡ flat_map (full_route basis.now.plan.now basis.now.limits.limit basis.now.limits.spare)
        (present_pairs basis.now.plan.now)) }
{
    let plan = basis.plan;
    for index in 0..plan.routes() {
        match plan.route_at(index) {
            Some(pair) => {
                let list = full_list(basis, pair.1, pair.0);
                add_route(routes, pair.0, pair.1, list)?;
            }
            None => unreachable!(),
        }
    }
    Ok(())
}

/// Adds the full lists of the other pairs of a code, in order of the exchanges.
fn add_absent<A: Allocator>(
    basis: &Basis<'_, A>,
    code: CodeId,
    routes: &mut Routes<A>,
) -> Result<(), NoMemory>
    requires code { code < length basis.now.plan.now.codes }
    requires so_far { routes.old
        ≡ routes_below basis.now.plan.now basis.now.limits.limit basis.now.limits.spare code }
    ensures { OnOk result (routes.new
        ≡ routes_below basis.now.plan.now
        basis.now.limits.limit basis.now.limits.spare (code + 1)) }
{
    let plan = basis.plan;
    for index in 0..plan.exchanges() {
        let exchange = ExchangeId::of(index);
        if plan.list(exchange, code).is_empty() {
            let list = full_list(basis, code, exchange);
            add_route(routes, exchange, code, list)?;
        }
    }
    Ok(())
}

/// The routes of all full lists.
pub fn full_routes<A: Allocator + Copy>(
    alloc: A,
    basis: &Basis<'_, A>,
) -> Result<Routes<A>, NoMemory>
    ensures { IfOk result (λ routes. routes
        ≡ full_routes basis.now.plan.now basis.now.limits.limit basis.now.limits.spare) }
{
    let plan = basis.plan;
    let mut routes = Routes::new(alloc);
    add_present(basis, &mut routes)?;
    for index in 0..plan.codes() {
        add_absent(basis, CodeId::of(index), &mut routes)?;
    }
    Ok(routes)
}
