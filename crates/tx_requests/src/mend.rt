// The command `mend`.
ghost use Rattle.tx_files.specs.Left.{HasRules};
ghost use Rattle.tx_requests.specs.Mend.{MendAnswers, mend_prints, MendEnds};

use crate::request::Request;
use std::alloc::Allocator;
use tx_commands::MendRequest;
use tx_files::{CommandFault, Ending, PlanText, Shown, text_if_asked};
use tx_mend::{Mending, mend, write_mending};
use tx_text::{Sink, WriteFault};

impl<A: Allocator + Copy> Request<A> for MendRequest {
    type Texts = PlanText<A>;

    type Answer = (Vec<u8, A>, Mending<A>);

    ghost fits = { HasRules };

    ghost answers = { MendAnswers };

    ghost prints = { mend_prints };

    ghost ends = { MendEnds };

    fn answer(&self, alloc: A, texts: Self::Texts) -> Result<Self::Answer, CommandFault> {
        let mending = mend(alloc, texts.plan, self.limits)?;
        Ok((texts.text, mending))
    }

    fn print<W: Sink>(&self, answer: &Self::Answer, out: &mut W) -> Result<(), WriteFault> {
        write_mending(&answer.1, self.limits, out)
    }

    fn end(&self, alloc: A, answer: Self::Answer) -> Result<Ending<A>, CommandFault> {
        let (text, mending) = answer;
        match mending {
            Mending::Mended(plan, _, cert) => {
                plan.rules();
                let text = text_if_asked(alloc, self.mended.is_some(), &text, &plan)?;
                Ok(Ending::with(0, Shown::Plan(plan), text, Some(cert)))
            }
            Mending::NoRouting(..) => Ok(Ending::of(1)),
        }
    }
}
