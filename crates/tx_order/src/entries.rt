// Whether anything is switched of a code between two fronts.
ghost use Rattle.std.specs.Prelude.{◌≡◌, ◌↔◌, true};
ghost use Rattle.tx_plan.specs.Routes.{route_list, is_barred};
ghost use Rattle.tx_order.specs.Orders.{AreAlikeFor};
ghost use Rattle.tx_order.specs.Transitions.{plan_front};

use crate::transition::Transition;
use std::alloc::Allocator;
use tx_plan::{CodeId, ExchangeId};

/// Whether the plans at two fronts have the same lists and the same bars for a code.
pub fn is_same<A: Allocator>(transition: &Transition<A>, code: CodeId, from: u16, to: u16) -> bool
    ensures { result ≡ true
        ↔ AreAlikeFor code (plan_front transition.now from) (plan_front transition.now to) }
{
    transition.rules();
    for index in 0..transition.exchanges() {
        let exchange = ExchangeId::of(index);
        if !is_same_list(transition, code, from, to, exchange) {
            return false;
        }
        let barred = transition.is_barred(from, exchange, code);
        if barred != transition.is_barred(to, exchange, code) {
            return false;
        }
    }
    true
}

/// Whether an exchange has the same list in both.
fn is_same_list<A: Allocator>(
    transition: &Transition<A>,
    code: CodeId,
    from: u16,
    to: u16,
    exchange: ExchangeId,
) -> bool
    ensures { result ≡ true ↔ (route_list (plan_front transition.now from) exchange code
        ≡ route_list (plan_front transition.now to) exchange code) }
{
    transition.list(from, exchange, code) == transition.list(to, exchange, code)
}
