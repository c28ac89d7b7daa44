// Whether an exchange has no group.
ghost use Rattle.std.specs.Prelude.{◌≡◌, ◌==◌, ◌||◌};
ghost use Rattle.tx_plan.specs.Circuits.{ends_of};
ghost use Rattle.tx_lint.specs.Warnings.{is_alone};

use std::alloc::Allocator;
use tx_plan::{ExchangeId, GroupId, Plan};

/// Whether no group leads to the exchange or from it, and it is not the only exchange.
pub(crate) fn is_alone<A: Allocator>(plan: &Plan<A>, exchange: ExchangeId) -> bool
    ensures { result ≡ is_alone plan.now exchange }
{
    for index in 0..plan.groups() {
        if is_end(plan, GroupId::of(index), exchange) {
            return false;
        }
    }
    plan.exchanges() > 1
}

/// Whether the exchange is an end of the group.
fn is_end<A: Allocator>(plan: &Plan<A>, group: GroupId, exchange: ExchangeId) -> bool
    ensures { result ≡ ((ends_of plan.now group).0 == exchange
        || (ends_of plan.now group).1 == exchange) }
{
    let (a, b) = plan.ends(group);
    a == exchange || b == exchange
}
