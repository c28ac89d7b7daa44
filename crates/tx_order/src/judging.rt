// The judgement on an order into a plan of any network.
ghost use Rattle.std.specs.Prelude.{ℕ, IfOk};
ghost use Rattle.tx_plan.specs.Plan.{Plan as PlanNow};
ghost use Rattle.tx_plan.specs.Mixtures.{SameNetwork};
ghost use Rattle.tx_audit.specs.Audits.{IsRightRanking};
ghost use Rattle.tx_order.specs.OrderVerdicts.{IsRightVerdict};
ghost use Rattle.tx_order.specs.Switchings.{IsOrdered};

use crate::orders::Order;
use crate::switching::{Switching, order};
use std::alloc::{Allocator, Global};
use tx_audit::judge;
use tx_join::Joined;
use tx_plan::{Limits, Plan};
use tx_rank::{Finding, Ranking};
use tx_text::NoMemory;

/// What the search for an order into a plan of any network comes to.
#[derive(Drop)]
pub enum OrderVerdict<A: Allocator = Global> {
    /// An order over the joined network, and the new plan as it is is sound.
    Ordered(Order<A>),
    /// There is none over the joined network: both plans over it, and what the ranking of the old
    /// one came to and that of the new one. One of them has findings.
    NoOrder(Joined<A>, Ranking<A>, Ranking<A>),
    /// There is one, but the new plan as it is is not sound: its findings, in their order.
    NewUnsound(Vec<Finding<A>, A>),
}

/// Looks for an order in which the lists and the bars of a plan are switched to those of another
/// one, over their joined network. Where there is one, judges the new plan as it is. `Err` means
/// out of memory.
pub fn judge_order<A: Allocator + Copy>(
    alloc: A,
    joined: Joined<A>,
    new: &Plan<A>,
    limits: Limits,
) -> Result<OrderVerdict<A>, NoMemory>
    requires { SameNetwork joined.old joined.new }
    ensures { IfOk result (IsRightVerdict joined.old joined.new new.now
        limits.limit limits.spare) }
{
    match order(alloc, joined, limits)? {
        Switching::Ordered(order) => judge_new(alloc, order, new, limits),
        Switching::NoOrder(plans, before, after) => Ok(OrderVerdict::NoOrder(plans, before, after)),
    }
}

/// Judges the new plan as it is, where there is an order.
fn judge_new<A: Allocator + Copy>(
    alloc: A,
    order: Order<A>,
    new: &Plan<A>,
    limits: Limits,
) -> Result<OrderVerdict<A>, NoMemory>
    ensures { (before after : PlanNow) → IsOrdered before after limits.limit limits.spare order
        → IfOk result (IsRightVerdict before after new.now limits.limit limits.spare) }
{
    match judge(alloc, new, limits) {
        Ok(ranking) => Ok(verdict_of(order, ranking)),
        Err(fault) => {
            drop(order);
            Err(fault)
        }
    }
}

/// The verdict where there is an order, by the ranking of the new plan as it is.
fn verdict_of<A: Allocator>(order: Order<A>, ranking: Ranking<A>) -> OrderVerdict<A>
    ensures { (before after new : PlanNow) (limit spare : ℕ)
        → IsOrdered before after limit spare order → IsRightRanking new limit spare ranking
        → IsRightVerdict before after new limit spare result }
{
    match ranking {
        Ranking::Found(_) => OrderVerdict::Ordered(order),
        Ranking::Fails(findings) => OrderVerdict::NewUnsound(findings),
    }
}
