// The routes and the bars of the plans on the way of an order.
ghost use Rattle.std.specs.Prelude.{◌≡◌, option_map, IfOk};
ghost use Rattle.tx_order.specs.Ordered.{fronts_before, plan_before};
ghost use Rattle.tx_order.specs.Stopped.{stages_done};
ghost use Rattle.tx_order.specs.Transitions.{has_list, has_bar};
ghost use Rattle.tx_order.specs.inner.Asked.{AreListsOf, plan_stopped};

use crate::orders::Order;
use std::alloc::Allocator;
use tx_change::{Lists, Mixing, mixed_lists};
use tx_plan::{CodeId, ExchangeId, Pair};
use tx_text::NoMemory;

/// How many stages are done for an exchange and a code, where one is stopped.
fn stages_done(done: Option<&[Pair]>, stage: usize, exchange: ExchangeId, code: CodeId) -> usize
    ensures { result ≡ stages_done (option_map (λ d. d.now) done.entry) stage exchange code }
{
    match done {
        Some(pairs) if !pairs.contains(&Pair { exchange, code }) => stage.saturating_sub(1),
        _ => stage,
    }
}

/// The plan where a stage is stopped, as a mixture of the old plan and the new one: of the stage
/// these pairs are done, or all of it.
#[derive(Drop)]
struct Stopped<'a, A: Allocator> {
    order: &'a Order<A>,
    stage: usize,
    done: Option<&'a [Pair]>,
}

impl<'a, A: Allocator> Stopped<'a, A> {
    /// The front of a code at an exchange.
    fn front(&self, exchange: ExchangeId, code: CodeId) -> u16
        ensures { result ≡ fronts_before self.now.order.now
            (stages_done (option_map (λ d. d.now) self.now.done) self.now.stage exchange code)
            code }
    {
        let stages = stages_done(self.done, self.stage, exchange, code);
        self.order.front(stages, code)
    }
}

impl<'a, A: Allocator> Mixing for Stopped<'a, A> {
    ghost listed = { λ p x c. has_list p.order.now.transition
        (fronts_before p.order.now (stages_done (option_map (λ d. d.now) p.done) p.stage x c) c)
        x c };

    ghost barred = { λ p x c. has_bar p.order.now.transition
        (fronts_before p.order.now (stages_done (option_map (λ d. d.now) p.done) p.stage x c) c)
        x c };

    fn has_list(&self, exchange: ExchangeId, code: CodeId) -> bool {
        let front = self.front(exchange, code);
        self.order.transition().has_list(front, exchange, code)
    }

    fn has_bar(&self, exchange: ExchangeId, code: CodeId) -> bool {
        let front = self.front(exchange, code);
        self.order.transition().has_bar(front, exchange, code)
    }
}

/// The routes and the bars of the plan before a stage.
pub fn lists_before<A: Allocator + Copy>(
    alloc: A,
    order: &Order<A>,
    stage: usize,
) -> Result<Lists<A>, NoMemory>
    ensures { IfOk result (AreListsOf (plan_before order.now stage)) }
{
    lists_stopped(alloc, order, stage, None)
}

/// The routes and the bars of the plan where a stage is stopped, by its number from 1.
pub fn lists_stopped<A: Allocator + Copy>(
    alloc: A,
    order: &Order<A>,
    stage: usize,
    done: Option<&[Pair]>,
) -> Result<Lists<A>, NoMemory>
    ensures { IfOk result (AreListsOf
        (plan_stopped order.now stage (option_map (λ d. d.now) done.entry))) }
{
    let plan = Stopped { order, stage, done };
    mixed_lists(alloc, &plan, order.old_plan(), order.new_plan())
}
