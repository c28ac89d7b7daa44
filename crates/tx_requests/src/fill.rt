// The command `fill`.
ghost use Rattle.tx_plan.specs.Rules.{IsPlan};
ghost use Rattle.tx_files.specs.Ending.{EndsWell};
ghost use Rattle.tx_requests.specs.Fill.{FillAnswers, fill_prints};

use crate::request::Request;
use std::alloc::{Allocator, Global};
use tx_commands::FillRequest;
use tx_files::{CommandFault, Ending, asked_of};
use tx_fill::{Fill, set_up_calls, write_fill};
use tx_plan::{CodeId, ExchangeId, GroupId, Plan};
use tx_text::{Sink, WriteFault};

/// The plan, what is asked for, and what the calls come to.
#[derive(Drop)]
pub struct Filled<A: Allocator = Global> {
    pub plan: Plan<A>,
    pub exchange: ExchangeId,
    pub code: CodeId,
    pub down: Vec<GroupId, A>,
    pub found: Fill<A>,
}

impl<A: Allocator + Copy> Request<A> for FillRequest {
    type Texts = Plan<A>;

    type Answer = Filled<A>;

    ghost fits = { IsPlan };

    ghost answers = { FillAnswers };

    ghost prints = { λ _. fill_prints };

    ghost ends = { λ _. EndsWell };

    fn answer(&self, alloc: A, texts: Self::Texts) -> Result<Self::Answer, CommandFault> {
        let exchange = self.exchange.as_bytes();
        let code = self.code.as_bytes();
        let (exchange, code, down) = asked_of(alloc, &texts, exchange, code, self.down.as_deref())?;
        let found = set_up_calls(alloc, &texts, &down, exchange, code)?;
        Ok(Filled {
            plan: texts,
            exchange,
            code,
            down,
            found,
        })
    }

    fn print<W: Sink>(&self, answer: &Self::Answer, out: &mut W) -> Result<(), WriteFault> {
        write_fill(
            &answer.plan,
            &answer.down,
            answer.code,
            answer.exchange,
            &answer.found,
            out,
        )
    }

    fn end(&self, _alloc: A, _answer: Self::Answer) -> Result<Ending<A>, CommandFault> {
        Ok(Ending::of(0))
    }
}
