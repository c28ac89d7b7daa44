// The command `trace PLAN --through NAME`.
ghost use Rattle.tx_plan.specs.Rules.{IsPlan};
ghost use Rattle.tx_files.specs.Ending.{EndsWell};
ghost use Rattle.tx_requests.specs.Through.{ThroughAnswers, through_prints};

use crate::request::Request;
use std::alloc::{Allocator, Global};
use tx_commands::ThroughRequest;
use tx_files::{CommandFault, Ending, passed_of};
use tx_plan::{GroupId, Pair, Plan};
use tx_text::{Sink, WriteFault};
use tx_trace::{Through, calls_through, plan_left, write_through};

/// The plan that is left while some groups are down, these, what is passed, and the calls that can
/// pass it.
pub struct Passed<A: Allocator = Global> {
    pub left: Plan<A>,
    pub down: Vec<GroupId, A>,
    pub through: Through,
    pub calls: Vec<Pair, A>,
}

impl<A: Allocator> Drop for Passed<A> {
    fn drop(self) {
        let Self {
            left,
            down,
            through: _,
            calls,
        } = self;
        drop(left);
        drop(down);
        drop(calls);
    }
}

impl<A: Allocator + Copy> Request<A> for ThroughRequest {
    type Texts = Plan<A>;

    type Answer = Passed<A>;

    ghost fits = { IsPlan };

    ghost answers = { ThroughAnswers };

    ghost prints = { λ _. through_prints };

    ghost ends = { λ _. EndsWell };

    fn answer(&self, alloc: A, texts: Self::Texts) -> Result<Self::Answer, CommandFault> {
        let name = self.name.as_bytes();
        let (through, down) = passed_of(alloc, &texts, name, self.down.as_deref())?;
        let left = plan_left(alloc, texts, &down)?;
        let calls = calls_through(alloc, &left, &through)?;
        Ok(Passed {
            left,
            down,
            through,
            calls,
        })
    }

    fn print<W: Sink>(&self, answer: &Self::Answer, out: &mut W) -> Result<(), WriteFault> {
        write_through(
            &answer.left,
            &answer.down,
            &answer.through,
            &answer.calls,
            out,
        )
    }

    fn end(&self, _alloc: A, _answer: Self::Answer) -> Result<Ending<A>, CommandFault> {
        Ok(Ending::of(0))
    }
}
