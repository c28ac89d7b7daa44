// Turns that no call can make.
ghost use Rattle.std.specs.Prelude.{◌≡◌};
ghost use Rattle.tx_audit.specs.Counter.{is_single, turns_on_one};

use std::alloc::Allocator;
use tx_plan::{Direction, ExchangeId, GroupId, Plan};

/// Whether both are one both-way group of a single circuit.
fn is_single<A: Allocator>(plan: &Plan<A>, first: GroupId, second: GroupId) -> bool
    ensures { result ≡ is_single plan.now first second }
{
    first == second && plan.direction(first) == Direction::BothWay && plan.group_count(first) == 1
}

/// Whether the last two steps go by one both-way group of a single circuit.
pub(crate) fn turns_on_one<A: Allocator>(plan: &Plan<A>, steps: &[(GroupId, ExchangeId)]) -> bool
    ensures { result ≡ turns_on_one plan.now steps.now }
{
    let count = steps.len();
    if count < 2 {
        return false;
    }
    let last = steps[count - 1];
    let before = steps[count - 2];
    is_single(plan, before.0, last.0)
}
