// Two plans of which one follows the other.
ghost use Rattle.std.specs.Prelude.{◌≡◌};
ghost use Rattle.tx_plan.specs.Routes.{route_list, is_barred};
ghost use Rattle.tx_page_change.specs.StepTexts.{alone_in};
ghost use Rattle.tx_page_change.specs.inner.Between.{before_of, after_of, IsThere};

use crate::entry::Entry;
use std::alloc::Allocator;
use tx_join::has_both;
use tx_order::Order;
use tx_plan::{CodeId, ExchangeId, GroupId, Plan};

/// Two plans of one network, of which one follows the other.
#[derive(Drop)]
pub enum Between<'a, A: Allocator> {
    /// The plans before and after a stage of an order, by its number from 0.
    Stage(&'a Order<A>, usize),
    /// An old plan and a new one.
    Plans(&'a Plan<A>, &'a Plan<A>),
    /// A plan without lists and bars, and with those alone whose exchange or code the other plan
    /// does not have.
    New(&'a Plan<A>, &'a Plan<A>),
    /// The same two, the other way round.
    Gone(&'a Plan<A>, &'a Plan<A>),
}

/// The list of an exchange for a code, if another plan does not have one of these; else none.
#[tactic(auto, using(crate::proofs::AloneIn::list_there, crate::proofs::AloneIn::no_list))]
fn list_alone<'a, A: Allocator>(
    plan: &'a Plan<A>,
    other: &Plan<A>,
    exchange: ExchangeId,
    code: CodeId,
) -> &'a [GroupId]
    ensures { result.now ≡ route_list (alone_in plan.now other.now) exchange code }
{
    if has_both(other, plan, exchange, code) {
        &[]
    } else {
        plan.list(exchange, code)
    }
}

/// Whether the exchange is barred for the code, if another plan does not have one of these.
#[tactic(auto, using(crate::proofs::AloneIn::bar_there))]
fn is_barred_alone<A: Allocator>(
    plan: &Plan<A>,
    other: &Plan<A>,
    exchange: ExchangeId,
    code: CodeId,
) -> bool
    ensures { result ≡ is_barred (alone_in plan.now other.now) exchange code }
{
    !has_both(other, plan, exchange, code) && plan.is_barred(exchange, code)
}

/// What an exchange has for a code in both.
pub fn entry_of<'a, A: Allocator>(
    between: &Between<'a, A>,
    exchange: ExchangeId,
    code: CodeId,
) -> Entry<'a>
    requires { IsThere between.now }
    ensures exchange { result.exchange ≡ exchange }
    ensures code { result.code ≡ code }
    ensures before { result.before.now ≡ route_list (before_of between.now) exchange code }
    ensures after { result.after.now ≡ route_list (after_of between.now) exchange code }
    ensures was_barred { result.was_barred ≡ is_barred (before_of between.now) exchange code }
    ensures is_barred { result.is_barred ≡ is_barred (after_of between.now) exchange code }
{
    match *between {
        Between::Stage(order, stage) => {
            order.rules();
            Entry {
                exchange,
                code,
                before: order.list(stage, exchange, code),
                after: order.list(stage + 1, exchange, code),
                was_barred: order.is_barred(stage, exchange, code),
                is_barred: order.is_barred(stage + 1, exchange, code),
            }
        }
        Between::Plans(old, new) => Entry {
            exchange,
            code,
            before: old.list(exchange, code),
            after: new.list(exchange, code),
            was_barred: old.is_barred(exchange, code),
            is_barred: new.is_barred(exchange, code),
        },
        Between::New(plan, other) => Entry {
            exchange,
            code,
            before: &[],
            after: list_alone(plan, other, exchange, code),
            was_barred: false,
            is_barred: is_barred_alone(plan, other, exchange, code),
        },
        Between::Gone(plan, other) => Entry {
            exchange,
            code,
            before: list_alone(plan, other, exchange, code),
            after: &[],
            was_barred: is_barred_alone(plan, other, exchange, code),
            is_barred: false,
        },
    }
}
