// The routes of a plan, with the lists of exchanges that no call comes to as they were.
ghost use Rattle.std.specs.Prelude.{◌≡◌, IfOk};
ghost use Rattle.std.specs.List.{flat_map};
ghost use Rattle.tx_plan.specs.Routes.{route_list};
ghost use Rattle.tx_mend.specs.inner.Full.{settled_list, settled_route};

use crate::rerouting::add_route;
use std::alloc::Allocator;
use tx_cert::Cert;
use tx_plan::{CodeId, ExchangeId, GroupList, Pair, Plan, Routes};
use tx_text::NoMemory;

/// The list that an exchange is to have for a code: that of the plan if a certificate ranks the
/// exchange for the code, and otherwise the one that it had before.
fn settled_list<A: Allocator>(
    plan: &Plan<A>,
    before: &Routes<A>,
    cert: &Cert<A>,
    exchange: ExchangeId,
    code: CodeId,
) -> GroupList
    ensures { result.items ≡ settled_list before.now cert.now exchange code
        (route_list plan.now exchange code) }
{
    if cert.rank(code, exchange).is_some() {
        return plan.group_list(exchange, code);
    }
    match GroupList::try_from(before.list(&Pair { exchange, code })) {
        Ok(list) => list,
        Err(_) => unreachable!(),
    }
}

/// The routes with these lists.
pub fn settled_routes<A: Allocator + Copy>(
    alloc: A,
    plan: &Plan<A>,
    before: &Routes<A>,
    cert: &Cert<A>,
) -> Result<Routes<A>, NoMemory>
    ensures { IfOk result (λ routes. routes
        ≡ flat_map (settled_route before.now cert.now) plan.now.routes) }
{
    let mut routes = Routes::new(alloc);
    for index in 0..plan.routes() {
        match plan.route_at(index) {
            Some((exchange, code)) => {
                let list = settled_list(plan, before, cert, exchange, code);
                add_route(&mut routes, exchange, code, list)?;
            }
            None => unreachable!(),
        }
    }
    Ok(routes)
}
