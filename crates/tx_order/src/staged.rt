// A stage of an order that is asked for.
ghost use Rattle.std.specs.Prelude.{◌≡◌, option_map, IfOk, IfSome, IfNone};
ghost use Rattle.tx_order.specs.Ordered.{stages_in, plan_before};
ghost use Rattle.tx_order.specs.Staged.{IsStageOf, IsStageCert, HasStage, LacksStage};
ghost use Rattle.tx_order.specs.Stopped.{IsStopped, target_of};

use crate::judging::OrderVerdict;
use crate::lists::{lists_before, lists_stopped};
use crate::orders::Order;
use std::alloc::Allocator;
use tx_cert::Cert;
use tx_plan::{Pair, Plan};
use tx_text::NoMemory;

/// How many stages an order has that does not have the one that is asked for, by its number.
pub fn missing_stage<A: Allocator>(verdict: &OrderVerdict<A>, stage: Option<u8>) -> Option<usize>
    ensures there { IfNone result (HasStage stage verdict.now) }
    ensures missing { IfSome result (LacksStage stage verdict.now) }
{
    match (verdict, stage) {
        (OrderVerdict::Ordered(order), Some(stage)) => stages_without(order, usize::from(stage)),
        _ => None,
    }
}

/// How many stages there are, where this is none of them.
pub fn stages_without<A: Allocator>(order: &Order<A>, stage: usize) -> Option<usize>
    ensures there { IfNone result (IsStageOf order.now stage) }
    ensures missing { IfSome result (λ stages.
        (stages ≡ stages_in order.now) × (IsStageOf order.now stage → ⊥)) }
{
    let stages = order.stages();
    if stages < stage { Some(stages) } else { None }
}

/// The plan after a stage of an order over the joined network, by its number, and a certificate for
/// this plan and the one before the stage. For 0 it is the plan before the first stage, with the
/// certificate of that stage.
pub fn stage_of<A: Allocator + Copy>(
    alloc: A,
    order: Order<A>,
    stage: u8,
) -> Result<(Plan<A>, Cert<A>), NoMemory>
    requires { IsStageOf order stage }
    ensures plan { IfOk result (λ made. made.0 ≡ plan_before order stage) }
    ensures cert { IfOk result (λ made. IsStageCert order stage made.1) }
{
    order.rules();
    let stage = usize::from(stage);
    let lists = lists_before(alloc, &order, stage)?;
    let cert = order.cert(alloc, stage.saturating_sub(1))?;
    let (plan, _) = order.with_lists(lists, false);
    Ok((plan, cert))
}

/// The plan where a stage of an order is stopped, by its number: of the stage these pairs are done,
/// or all of it. And the plan to which an order leads on or back from there.
pub fn plan_stopped<A: Allocator + Copy>(
    alloc: A,
    order: Order<A>,
    stage: u8,
    done: Option<&[Pair]>,
    back: bool,
) -> Result<(Plan<A>, Plan<A>), NoMemory>
    ensures plan { IfOk result
        (λ made. IsStopped order stage (option_map (λ d. d.now) done.entry) made.0) }
    ensures target { IfOk result
        (λ made. made.1 ≡ target_of back order.transition.old order.transition.new) }
{
    order.rules();
    let lists = lists_stopped(alloc, &order, usize::from(stage), done)?;
    Ok(order.with_lists(lists, back))
}
