// What the lines of a plan declare.
ghost use Rattle.std.specs.Prelude.{◌≡◌, ◌∷◌, [], ℕ};
ghost use Rattle.tx_plantext.specs.inner.LineWords.{line_words};
ghost use Rattle.tx_lint.specs.AllFaults.{entry_at};

use std::alloc::Allocator;
use tx_plan::{CodeId, ExchangeId, GroupId, Plan};
use tx_plantext::PlanLine;

/// What a line of a plan's text declares. Ranges, routes and bars are known by their indexes in
/// their lists, from 0.
#[derive(Clone, Copy)]
pub(crate) enum Entry {
    Header,
    Exchange(ExchangeId),
    Code(CodeId),
    Lines(usize),
    Group(GroupId),
    Route(usize),
    Bar(usize),
}

impl Entry {
    /// What the line declares, as the next of the plan.
    pub(crate) fn next<A: Allocator>(plan: &Plan<A>, line: &PlanLine<'_>) -> Entry
        ensures { (n : ℕ) → entry_at plan.now n (line_words line.now) ≡ (n, result) ∷ [] }
    {
        match line {
            PlanLine::Exchange { .. } => Entry::Exchange(ExchangeId::of(plan.exchanges())),
            PlanLine::Code { .. } => Entry::Code(CodeId::of(plan.codes())),
            PlanLine::Lines { .. } => Entry::Lines(plan.ranges()),
            PlanLine::Group { .. } => Entry::Group(GroupId::of(plan.groups())),
            PlanLine::Route { .. } => Entry::Route(plan.routes()),
            PlanLine::Bar { .. } => Entry::Bar(plan.bars()),
        }
    }
}
