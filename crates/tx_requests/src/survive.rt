// The command `survive`.
ghost use Rattle.std.specs.List.{list_any};
ghost use Rattle.std.specs.Prelude.{◌≡◌, ◌==◌, not, length};
ghost use Rattle.tx_files.specs.Reading.{HasItsRisks};
ghost use Rattle.tx_requests.specs.Survive.{is_only, SurviveAnswers, survive_prints, SurviveEnds, is_denied};

use crate::request::Request;
use std::alloc::Allocator;
use tx_commands::SurviveRequest;
use tx_files::{CommandFault, Ending, PlanRisks};
use tx_risk::{Outcome, Survival, survive};
use tx_risk_report::{is_harmless, write_survival};
use tx_text::{Sink, WriteFault};

impl<A: Allocator + Copy> Request<A> for SurviveRequest {
    type Texts = PlanRisks<A>;

    type Answer = (PlanRisks<A>, Survival<A>);

    ghost fits = { HasItsRisks };

    ghost answers = { SurviveAnswers };

    ghost prints = { λ _. survive_prints };

    ghost ends = { λ _. SurviveEnds };

    fn answer(&self, alloc: A, texts: Self::Texts) -> Result<Self::Answer, CommandFault> {
        let only = named_only(&self.risks);
        let survival = survive(alloc, &texts.plan, &texts.risks, only)?;
        Ok((texts, survival))
    }

    fn print<W: Sink>(&self, answer: &Self::Answer, out: &mut W) -> Result<(), WriteFault> {
        write_survival(&answer.0.plan, &answer.0.risks, &answer.1, out)
    }

    fn end(&self, _alloc: A, answer: Self::Answer) -> Result<Ending<A>, CommandFault> {
        Ok(Ending::of(u8::from(is_denied(&answer.1))))
    }
}

/// Whether the named risks alone are tried.
pub(crate) fn named_only(risks: &Option<(String, bool)>) -> bool
    ensures { result ≡ is_only risks.now }
{
    match risks {
        Some((_, only)) => *only,
        None => false,
    }
}

/// Whether an outage cuts somebody off, or the plan has no grade.
fn is_denied<A: Allocator>(survival: &Survival<A>) -> bool
    ensures { result ≡ is_denied survival.now }
{
    match survival {
        Survival::Tried(outcomes) => cuts_somebody_off(outcomes),
        Survival::Ungraded(_) => true,
    }
}

/// Whether one of these outages cuts somebody off.
fn cuts_somebody_off<A: Allocator>(outcomes: &[Outcome<A>]) -> bool
    ensures { result ≡ list_any (λ o. not (length o.cuts.items == 0)) outcomes.now }
{
    outcomes.iter().any(|outcome| !is_harmless(outcome))
}
