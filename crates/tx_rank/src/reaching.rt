// Which exchanges calls for a code come to.
ghost use Rattle.std.specs.Prelude.{◌≡◌, ◌<◌, ℕ, true, false, ◌&&◌, not, length, Some, IfOk, IfNone};
ghost use Rattle.std.specs.Option.{IfSome};
ghost use Rattle.tx_plan.specs.Among.{Among};
ghost use Rattle.tx_plan.specs.Circuits.{other_end};
ghost use Rattle.tx_plan.specs.Routes.{route_list};
ghost use Rattle.tx_rank.specs.Walks.{net_of};
ghost use Rattle.tx_rank.specs.Judged.{AreOrigins};
ghost use Rattle.tx_rank.specs.Reached.{is_marked, AreReached};
ghost use Rattle.tx_rank.specs.inner.Seen.{AreSeen, LeadsToSeen, StaysSeen};

use crate::code_routes::CodeRoutes;
use crate::marks::is_marked;
use crate::routes::CodeNet;
use std::alloc::Allocator;
use tx_plan::{CodeId, ExchangeId, GroupId, Plan};
use tx_text::NoMemory;

/// Marks each exchange that some call for the code may come to, going by any groups of the lists.
pub fn reached<A: Allocator + Copy>(
    alloc: A,
    plan: &Plan<A>,
    origins: &[bool],
    code: CodeId,
) -> Result<Vec<bool, A>, NoMemory>
    requires code { code < length plan.now.codes }
    requires origins { AreOrigins plan.now origins.now }
    ensures { IfOk result (λ marks. AreReached (net_of plan.now code) marks.items) }
{
    let mut seen = starts(alloc, plan, origins, code)?;
    let mut opened = vec![in alloc; false; plan.exchanges()]?;
    while let Some(exchange) = next(&seen, &opened) {
        opened[exchange.index()] = true;
        open(plan, code, exchange, &mut seen);
    }
    Ok(seen)
}

/// Marks each exchange where calls for the code may start.
fn starts<A: Allocator + Copy>(
    alloc: A,
    plan: &Plan<A>,
    origins: &[bool],
    code: CodeId,
) -> Result<Vec<bool, A>, NoMemory>
    requires code { code < length plan.now.codes }
    requires origins { AreOrigins plan.now origins.now }
    ensures { IfOk result (λ marks. AreSeen (net_of plan.now code) marks.items) }
{
    let mut marks = Vec::with_capacity(alloc, plan.exchanges())?;
    for index in 0..plan.exchanges() {
        let routes = CodeRoutes {
            plan,
            origins,
            code,
        };
        marks.push_reserved(routes.is_origin(ExchangeId::of(index)));
    }
    Ok(marks)
}

/// Whether an exchange is marked and was not opened yet.
fn is_waiting(seen: &[bool], opened: &[bool], exchange: ExchangeId) -> bool
    ensures { result ≡ (is_marked seen.now exchange && not (is_marked opened.now exchange)) }
{
    is_marked(seen, exchange) && !is_marked(opened, exchange)
}

/// An exchange that is marked and was not opened yet.
fn next(seen: &[bool], opened: &[bool]) -> Option<ExchangeId>
    requires few { length seen.now < 65536 }
    requires long { length seen.now ≡ length opened.now }
    ensures some { IfSome result (λ x. (x < length seen.now)
        × (is_marked seen.now x ≡ true) × (is_marked opened.now x ≡ false)) }
    ensures none { IfNone result ((x : ℕ) → is_marked seen.now x ≡ true
        → is_marked opened.now x ≡ true) }
{
    for index in 0..seen.len() {
        let exchange = ExchangeId::of(index);
        if is_waiting(seen, opened, exchange) {
            return Some(exchange);
        }
    }
    None
}

/// Where a group in the list of an exchange leads.
pub fn far<A: Allocator>(
    plan: &Plan<A>,
    code: CodeId,
    exchange: ExchangeId,
    group: GroupId,
) -> ExchangeId
    requires code { code < length plan.now.codes }
    requires listed { Among group (route_list plan.now exchange code) }
    ensures leads { other_end plan.now group exchange ≡ Some result }
    ensures within { result < length plan.now.exchanges }
{
    match plan.other_end(group, exchange) {
        Some(to) => to,
        None => unreachable!(),
    }
}

/// Marks each exchange to which a marked one leads. The home leads nowhere.
fn open<A: Allocator>(plan: &Plan<A>, code: CodeId, exchange: ExchangeId, seen: &mut [bool])
    requires code { code < length plan.now.codes }
    requires seen { AreSeen (net_of plan.now code) seen.old }
    requires here { is_marked seen.old exchange ≡ true }
    ensures seen { AreSeen (net_of plan.now code) seen.new }
    ensures stays { StaysSeen seen.old seen.new }
    ensures leads { LeadsToSeen (net_of plan.now code) seen.new exchange }
{
    if exchange == plan.home(code) {
        return;
    }
    let list = plan.list(exchange, code);
    for i in 0..list.len() {
        let to = far(plan, code, exchange, list[i]);
        seen[to.index()] = true;
    }
}
