// The readers of plan texts.
ghost use Rattle.std.specs.Prelude.{◌≡◌, true, IfOk};
ghost use Rattle.tx_text.specs.Calls.{CallsAtMost, source_calls};
ghost use Rattle.tx_text.specs.Ends.{input};
ghost use Rattle.tx_text.specs.Said.{AnswersAs, told_fault};
ghost use Rattle.tx_text.specs.Told.{AtEnd};
ghost use Rattle.tx_plan.specs.Plan.{no_plan};
ghost use Rattle.tx_plan.specs.Rules.{IsPlan};
ghost use Rattle.tx_plantext.specs.PlanText.{declare, plan_of, is_memory, declares_line, ReadsPlan};

use crate::declaring::declare;
use crate::fault::{PlanFault, PlanWord};
use std::alloc::Allocator;
use std::marker::Model;
use tx_plan::{Plan, PlanBuilder};
use tx_text::{Declares, Source, Words, read_slice, read_text};

/// The word of the header.
pub const KEY: &[u8] = b"PLAN";

/// How many versions of the text there are.
pub const VERSIONS: u8 = 2;

/// What the lines of a plan's text declared so far.
#[derive(Drop)]
struct PlanLines<A: Allocator> {
    plan: PlanBuilder<A>,
}

impl<A: Allocator> Model for PlanLines<A> {
    ghost use Rattle.tx_plan.specs.Plan.{Plan};

    ghost Value = { Plan };

    ghost view = { λ lines. lines.plan };
}

impl<A: Allocator + Copy> PlanLines<A> {
    /// Nothing was declared yet.
    fn new(alloc: A) -> PlanLines<A>
        ensures { result ≡ no_plan }
    {
        PlanLines {
            plan: PlanBuilder::new(alloc),
        }
    }
}

impl<A: Allocator> Declares for PlanLines<A> {
    type Word = PlanWord;

    ghost declares = { declare };

    ghost is_memory = { is_memory };

    fn declare(&mut self, version: u8, words: Words<'_>) -> Result<(), PlanWord> {
        declare(&mut self.plan, version, words)
    }
}

/// Reads a plan text from a source, to its end, in pieces of any size and by at most 4,294,967,295
/// calls. `Err` is the first fault, with its line. A fault before the end is one whatever bytes
/// follow.
pub fn read_plan_from<R: Source, A: Allocator + Copy>(
    alloc: A,
    source: &mut R,
) -> Result<Plan<A>, PlanFault>
    ensures answer { ReadsPlan (input R.rest R.failed R.called source.old source.new)
        (told_fault result) }
    ensures rules { IfOk result IsPlan }
    ensures calls { CallsAtMost R.called source_calls source.old source.new }
{
    let lines = read_text(alloc, KEY, VERSIONS, PlanLines::new(alloc), source)?;
    let plan = lines.plan.finish();
    plan.rules();
    Ok(plan)
}

/// Reads a plan text that is in memory. `Err` is the first fault, with its line.
pub fn read_plan<A: Allocator + Copy>(alloc: A, text: &[u8]) -> Result<Plan<A>, PlanFault>
    ensures { AnswersAs is_memory (plan_of AtEnd text.now)
        (λ n. declares_line n AtEnd text.now ≡ true) (told_fault result) }
{
    let lines = read_slice(alloc, KEY, VERSIONS, PlanLines::new(alloc), text)?;
    Ok(lines.plan.finish())
}
