// What each line declares.
ghost use Rattle.std.specs.Prelude.{◌≡◌, IfErr};
ghost use Rattle.tx_text.specs.Said.{Declared};
ghost use Rattle.tx_plantext.specs.PlanText.{declare, count_of, is_memory, word_told};
ghost use Rattle.tx_plantext.specs.inner.LineWords.{line_words};

use crate::fault::PlanWord;
use crate::plan_line::{LineFault, PlanLine};
use std::alloc::Allocator;
use tx_plan::{PlanBuilder, PlanRefusal};
use tx_text::{Words, number};

impl<'t> PlanLine<'t> {
    /// Declares what the line does, after the lines before it. A line that is refused changes
    /// nothing.
    #[tactic(auto, using(crate::proofs::Entries::declared_from, crate::proofs::Entries::same_from), unfolding(crate::specs::PlanText::declare))]
    pub fn declare<A: Allocator>(&self, plan: &mut PlanBuilder<A>) -> Result<(), PlanRefusal>
        ensures declared { Declared is_memory (declare 2 plan.old (line_words self.now)) plan.new
            (word_told result) }
        ensures same { IfErr result (λ _. plan.new ≡ plan.old) }
    {
        match self {
            PlanLine::Exchange { name } => plan.exchange(name),
            PlanLine::Code { code, home } => plan.code(code, home),
            PlanLine::Lines { code, low, high } => plan.lines(code, low, high),
            PlanLine::Group {
                name,
                a,
                b,
                direction,
                count,
            } => plan.group(name, a, b, *direction, count_of(count)),
            PlanLine::Route {
                exchange,
                code,
                groups,
            } => plan.route(exchange, code, groups.again()),
            PlanLine::Bar { exchange, code } => plan.bar(exchange, code),
        }
    }
}

fn count_of(word: &[u8]) -> u32
    ensures { result ≡ count_of word.now }
{
    number(word, 240).unwrap_or(0)
}

/// Declares what the line does under a header of this version, after the lines before it. A line
/// that is refused changes nothing.
pub fn declare<A: Allocator>(
    plan: &mut PlanBuilder<A>,
    version: u8,
    words: Words<'_>,
) -> Result<(), PlanWord>
    ensures declared { Declared is_memory (declare version plan.old words.entry) plan.new result }
    ensures same { IfErr result (λ _. plan.new ≡ plan.old) }
{
    match PlanLine::read(version, words) {
        Ok(line) => Ok(line.declare(plan)?),
        Err(LineFault::UnknownWord(_)) => Err(PlanWord::UnknownWord),
        Err(LineFault::WrongCount) => Err(PlanWord::Refused(PlanRefusal::WrongCount)),
    }
}
