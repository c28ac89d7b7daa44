// The command `trace`.
ghost use Rattle.tx_plan.specs.Rules.{IsPlan};
ghost use Rattle.tx_files.specs.Ending.{EndsWell};
ghost use Rattle.tx_requests.specs.Trace.{TraceAnswers, trace_prints};

use crate::request::Request;
use std::alloc::{Allocator, Global};
use tx_commands::TraceRequest;
use tx_files::{CommandFault, Ending, asked_of};
use tx_plan::{GroupId, Plan};
use tx_text::{Sink, WriteFault};
use tx_trace::{Trace, plan_left, trace_calls, write_trace};

/// The plan that is left while some groups are down, these, and how the calls go in it.
#[derive(Drop)]
pub struct Traced<A: Allocator = Global> {
    pub left: Plan<A>,
    pub down: Vec<GroupId, A>,
    pub trace: Trace<A>,
}

impl<A: Allocator + Copy> Request<A> for TraceRequest {
    type Texts = Plan<A>;

    type Answer = Traced<A>;

    ghost fits = { IsPlan };

    ghost answers = { TraceAnswers };

    ghost prints = { λ _. trace_prints };

    ghost ends = { λ _. EndsWell };

    fn answer(&self, alloc: A, texts: Self::Texts) -> Result<Self::Answer, CommandFault> {
        let exchange = self.exchange.as_bytes();
        let code = self.code.as_bytes();
        let (exchange, code, down) = asked_of(alloc, &texts, exchange, code, self.down.as_deref())?;
        let left = plan_left(alloc, texts, &down)?;
        let trace = trace_calls(alloc, &left, code, exchange)?;
        Ok(Traced { left, down, trace })
    }

    fn print<W: Sink>(&self, answer: &Self::Answer, out: &mut W) -> Result<(), WriteFault> {
        write_trace(&answer.left, &answer.down, &answer.trace, out)
    }

    fn end(&self, _alloc: A, _answer: Self::Answer) -> Result<Ending<A>, CommandFault> {
        Ok(Ending::of(0))
    }
}
