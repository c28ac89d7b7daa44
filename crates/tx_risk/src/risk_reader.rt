// The readers of texts of risks.
ghost use Rattle.std.specs.Prelude.{◌≡◌, [], true, IfOk};
ghost use Rattle.tx_text.specs.Calls.{CallsAtMost, source_calls};
ghost use Rattle.tx_text.specs.Ends.{input};
ghost use Rattle.tx_text.specs.Said.{AnswersAs, told_fault};
ghost use Rattle.tx_text.specs.Told.{AtEnd};
ghost use Rattle.tx_risk.specs.NamedRisks.{AreRisksFor};
ghost use Rattle.tx_risk.specs.RiskText.{risks_of, is_memory, declares_line, ReadsRisks};

use crate::declaring::declare;
use crate::fault::{RiskFault, RiskWord};
use crate::risks::Risks;
use std::alloc::Allocator;
use std::marker::Model;
use tx_plan::Plan;
use tx_text::{Declares, Source, Words, read_slice, read_text};

/// A plan, and the risks for it that the lines of a text declared so far.
#[derive(Drop)]
struct RiskLines<'p, A: Allocator> {
    alloc: A,
    plan: &'p Plan<A>,
    risks: Risks<A>,
}

impl<'p, A: Allocator> Model for RiskLines<'p, A> {
    ghost use Rattle.std.specs.Prelude.{List};
    ghost use Rattle.tx_plan.specs.Plan.{Plan};
    ghost use Rattle.tx_risk.specs.NamedRisks.{NamedRisk, AreRisksFor};

    ghost Value = { Plan × List NamedRisk };

    ghost view = { λ lines. (lines.plan.now, lines.risks) };

    ghost invariant = { λ lines. AreRisksFor lines.plan.now lines.risks };
}

impl<'p, A: Allocator + Copy> RiskLines<'p, A> {
    /// No risks yet.
    #[tactic(auto, using(crate::proofs::RiskLines::no_risks))]
    fn new(alloc: A, plan: &'p Plan<A>) -> RiskLines<'p, A>
        ensures { result ≡ (plan.now, []) }
    {
        RiskLines {
            alloc,
            plan,
            risks: Risks::none(alloc),
        }
    }
}

impl<'p, A: Allocator> RiskLines<'p, A> {
    /// The risks.
    fn finish(self) -> Risks<A>
        ensures risks { result ≡ self.entry.1 }
        ensures fits { AreRisksFor self.entry.0 result }
    {
        self.risks
    }
}

impl<'p, A: Allocator + Copy> Declares for RiskLines<'p, A> {
    ghost use Rattle.tx_text.specs.inner.Beside.{beside};
    ghost use Rattle.tx_risk.specs.RiskText.{declare, is_memory};

    type Word = RiskWord;

    ghost declares = { beside declare };

    ghost is_memory = { is_memory };

    fn declare(&mut self, version: u8, words: Words<'_>) -> Result<(), RiskWord> {
        declare(self.alloc, self.plan, version, &mut self.risks, words)
    }
}

/// Reads the named risks of a plan from a source, to its end, in pieces of any size and by at most
/// 4,294,967,295 calls. `Err` is the first fault, with its line. A fault before the end is one
/// whatever bytes follow.
pub fn read_risks_from<R: Source, A: Allocator + Copy>(
    alloc: A,
    source: &mut R,
    plan: &Plan<A>,
) -> Result<Risks<A>, RiskFault>
    ensures answer { ReadsRisks plan.now (input R.rest R.failed R.called source.old source.new)
        (told_fault result) }
    ensures calls { CallsAtMost R.called source_calls source.old source.new }
    ensures fits { IfOk result (λ risks. AreRisksFor plan.now risks) }
{
    let lines = read_text(alloc, b"RISKS", 2, RiskLines::new(alloc, plan), source)?;
    Ok(lines.finish())
}

/// Reads the named risks of a plan from a text that is in memory. `Err` is the first fault,
/// with its line.
pub fn read_risks<A: Allocator + Copy>(
    alloc: A,
    text: &[u8],
    plan: &Plan<A>,
) -> Result<Risks<A>, RiskFault>
    ensures answer { AnswersAs is_memory (risks_of plan.now AtEnd text.now)
        (λ n. declares_line plan.now n AtEnd text.now ≡ true) (told_fault result) }
    ensures fits { IfOk result (λ risks. AreRisksFor plan.now risks) }
{
    let lines = read_slice(alloc, b"RISKS", 2, RiskLines::new(alloc, plan), text)?;
    Ok(lines.finish())
}
