// The command `order`.
ghost use Rattle.std.specs.Prelude.{◌≡◌, is_some};
ghost use Rattle.tx_plan.specs.Rules.{IsPlan};
ghost use Rattle.tx_order.specs.Ordered.{plan_before};
ghost use Rattle.tx_order.specs.Staged.{IsStageOf};
ghost use Rattle.tx_files.specs.TwoPlans.{AreJoined};
ghost use Rattle.tx_requests.specs.Order.{OrderAnswers, word_of, order_prints, EndsAtStage, OrderEnds};

use crate::request::Request;
use std::alloc::{Allocator, Global};
use tx_commands::{OrderRequest, Stopped};
use tx_files::{CommandFault, Ending, PlanText, Shown, TwoPlans, text_if_asked};
use tx_order::{Order, OrderVerdict, judge_order, missing_stage, stage_of, write_order};
use tx_text::{Sink, WriteFault};

/// Two plans with their texts, and the order of switching from the one to the other over their
/// joined network, or what is wrong.
#[derive(Drop)]
pub struct Switched<A: Allocator = Global> {
    pub old: PlanText<A>,
    pub new: PlanText<A>,
    pub verdict: OrderVerdict<A>,
}

impl<A: Allocator + Copy> Request<A> for OrderRequest {
    type Texts = TwoPlans<A>;

    type Answer = Switched<A>;

    ghost fits = { AreJoined };

    ghost answers = { OrderAnswers };

    ghost prints = { order_prints };

    ghost ends = { OrderEnds };

    fn answer(&self, alloc: A, texts: Self::Texts) -> Result<Self::Answer, CommandFault> {
        let TwoPlans { old, new, joined } = texts;
        let verdict = judge_order(alloc, joined, &new.plan, self.limits)?;
        match missing_stage(&verdict, self.stage) {
            Some(stages) => Err(CommandFault::NoSuchStage(stages)),
            None => Ok(Switched { old, new, verdict }),
        }
    }

    fn print<W: Sink>(&self, answer: &Self::Answer, out: &mut W) -> Result<(), WriteFault> {
        write_order(
            word_of(self.stopped),
            &answer.old.plan,
            &answer.new.plan,
            &answer.verdict,
            self.limits,
            out,
        )
    }

    fn end(&self, alloc: A, answer: Self::Answer) -> Result<Ending<A>, CommandFault> {
        let Switched { old, verdict, .. } = answer;
        match verdict {
            OrderVerdict::Ordered(order) => match self.stage {
                Some(stage) => end_at_stage(alloc, self, &old, order, stage),
                None => Ok(Ending::of(0)),
            },
            OrderVerdict::NoOrder(..) | OrderVerdict::NewUnsound(_) => Ok(Ending::of(1)),
        }
    }
}

/// The word that says which order it is.
fn word_of(stopped: Option<Stopped>) -> &'static [u8]
    ensures { result.now ≡ word_of stopped }
{
    match stopped {
        None => b"ORDER",
        Some(stopped) if stopped.back => b"RETURN",
        Some(_) => b"ONWARD",
    }
}

/// With the plan after a stage, and the certificate of the stage.
fn end_at_stage<A: Allocator + Copy>(
    alloc: A,
    request: &OrderRequest,
    old: &PlanText<A>,
    order: Order<A>,
    stage: u8,
) -> Result<Ending<A>, CommandFault>
    requires there { IsStageOf order stage }
    requires rules { IsPlan (plan_before order stage) }
    ensures { EndsAtStage (is_some request.now.plan) old.now order stage result }
{
    let (plan, cert) = stage_of(alloc, order, stage)?;
    let text = text_if_asked(alloc, request.plan.is_some(), &old.text, &plan)?;
    Ok(Ending::with(0, Shown::Plan(plan), text, Some(cert)))
}
