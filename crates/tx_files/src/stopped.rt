// The two plans of an order that leads on or back from where another one was stopped.
ghost use Rattle.std.specs.Prelude.{◌≡◌, IfOk};
ghost use Rattle.std.specs.Result.{result_map_both};
ghost use Rattle.tx_text.specs.Calls.{CallsAtMost, source_calls};
ghost use Rattle.tx_text.specs.Ends.{input};
ghost use Rattle.tx_plan.specs.Mixtures.{SameNetwork};
ghost use Rattle.tx_plan.specs.Rules.{IsPlan};
ghost use Rattle.tx_order.specs.Stopped.{target_of};
ghost use Rattle.tx_files.specs.Stopped.{StopsIn, StopsAt, Resumes, ReadsStopped};
ghost use Rattle.tx_files.specs.TwoPlans.{AreJoined};

use crate::fault::CommandFault;
use crate::two_plans::{PlanText, TwoPlans, joined_of, read_plans};
use std::alloc::Allocator;
use tx_commands::Stopped;
use tx_join::Joined;
use tx_order::{Order, Switching, order, plan_stopped, read_done, stages_without};
use tx_plan::Plan;
use tx_text::Source;

/// Reads an old plan and then a new one, and joins them. If an order between them was stopped, they
/// give way to the plan where it was, over their joined network, and the one to which an order is
/// to lead from there. What is done of the stage is read last, if it is named.
pub fn read_stopped<A: Allocator + Copy, P: Source, Q: Source, R: Source>(
    alloc: A,
    stopped: Option<Stopped>,
    named: bool,
    old: &mut P,
    new: &mut Q,
    done: &mut R,
) -> Result<TwoPlans<A>, CommandFault>
    ensures texts { ReadsStopped stopped named (input P.rest P.failed P.called old.old old.new)
        (input Q.rest Q.failed Q.called new.old new.new)
        (input R.rest R.failed R.called done.old done.new) result }
    ensures known { IfOk result AreJoined }
    ensures old_calls { CallsAtMost P.called source_calls old.old old.new }
    ensures new_calls { CallsAtMost Q.called source_calls new.old new.new }
    ensures done_calls { CallsAtMost R.called source_calls done.old done.new }
{
    let texts = read_plans(alloc, old, new)?;
    match stopped {
        Some(stopped) => resume(alloc, stopped, named, texts, done),
        None => Ok(texts),
    }
}

/// The plan where an order between two plans was stopped, and the one to which an order is to lead.
fn resume<A: Allocator + Copy, R: Source>(
    alloc: A,
    stopped: Stopped,
    named: bool,
    texts: TwoPlans<A>,
    done: &mut R,
) -> Result<TwoPlans<A>, CommandFault>
    requires { AreJoined texts }
    ensures texts { Resumes stopped named texts
        (input R.rest R.failed R.called done.old done.new) result }
    ensures known { IfOk result AreJoined }
    ensures calls { CallsAtMost R.called source_calls done.old done.new }
{
    let TwoPlans { old, new, joined } = texts;
    let (plan, target) = plan_where(alloc, stopped, named, joined, done)?;
    let old = PlanText {
        text: old.text,
        plan,
    };
    let new = PlanText {
        text: new.text,
        plan: target,
    };
    let joined = joined_of(alloc, &old, &new)?;
    Ok(TwoPlans { old, new, joined })
}

/// The plan where an order between two plans of one network was stopped, and the one to which an
/// order is to lead from there.
fn plan_where<A: Allocator + Copy, R: Source>(
    alloc: A,
    stopped: Stopped,
    named: bool,
    joined: Joined<A>,
    done: &mut R,
) -> Result<(Plan<A>, Plan<A>), CommandFault>
    requires { SameNetwork joined.old joined.new }
    ensures plan { StopsAt A joined.old joined.new stopped named
        (input R.rest R.failed R.called done.old done.new)
        (result_map_both (λ plans. plans.0) (λ fault. fault) result) }
    ensures rules { IfOk result (λ plans. IsPlan plans.0) }
    ensures target { IfOk result
        (λ plans. plans.1 ≡ target_of stopped.back joined.old joined.new) }
    ensures calls { CallsAtMost R.called source_calls done.old done.new }
{
    match order(alloc, joined, stopped.limits)? {
        Switching::Ordered(order) => plan_in(alloc, order, stopped, named, done),
        Switching::NoOrder(..) => Err(CommandFault::NoSuchStage(0)),
    }
}

/// The plan in the stage of an order where it was stopped, and the one to which an order is to lead
/// from there.
fn plan_in<A: Allocator + Copy, R: Source>(
    alloc: A,
    order: Order<A>,
    stopped: Stopped,
    named: bool,
    done: &mut R,
) -> Result<(Plan<A>, Plan<A>), CommandFault>
    ensures plan { StopsIn stopped named
        (input R.rest R.failed R.called done.old done.new) order
        (result_map_both (λ plans. plans.0) (λ fault. fault) result) }
    ensures rules { IfOk result (λ plans. IsPlan plans.0) }
    ensures target { IfOk result (λ plans.
        plans.1 ≡ target_of stopped.back order.transition.old order.transition.new) }
    ensures calls { CallsAtMost R.called source_calls done.old done.new }
{
    if let Some(stages) = stages_without(&order, usize::from(stopped.stage)) {
        return Err(CommandFault::NoSuchStage(stages));
    }
    if !named {
        return Ok(plan_stopped(alloc, order, stopped.stage, None, stopped.back)?);
    }
    let pairs = read_done(alloc, done, &order, stopped.stage)?;
    Ok(plan_stopped(alloc, order, stopped.stage, Some(&pairs), stopped.back)?)
}
