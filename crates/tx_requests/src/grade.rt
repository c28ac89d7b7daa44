// The command `grade`.
ghost use Rattle.tx_plan.specs.Rules.{IsPlan};
ghost use Rattle.tx_requests.specs.Grade.{GradeAnswers, grade_prints, GradeEnds};

use crate::request::Request;
use std::alloc::Allocator;
use tx_commands::GradeRequest;
use tx_files::{CommandFault, Ending};
use tx_plan::Plan;
use tx_rank::{Grade, grade, write_grade};
use tx_text::{Sink, WriteFault};

impl<A: Allocator + Copy> Request<A> for GradeRequest {
    type Texts = Plan<A>;

    type Answer = (Plan<A>, Grade<A>);

    ghost fits = { IsPlan };

    ghost answers = { λ _. GradeAnswers };

    ghost prints = { λ _. grade_prints };

    ghost ends = { λ _. GradeEnds };

    fn answer(&self, alloc: A, texts: Self::Texts) -> Result<Self::Answer, CommandFault> {
        let grade = grade(alloc, &texts)?;
        Ok((texts, grade))
    }

    fn print<W: Sink>(&self, answer: &Self::Answer, out: &mut W) -> Result<(), WriteFault> {
        write_grade(&answer.0, &answer.1, out)
    }

    fn end(&self, _alloc: A, answer: Self::Answer) -> Result<Ending<A>, CommandFault> {
        match &answer.1.plan {
            Some(_) => Ok(Ending::of(0)),
            None => Ok(Ending::of(1)),
        }
    }
}
