// The faults or warnings of a plan's text.
ghost use Rattle.std.specs.Prelude.{◌≡◌, [], IfOk, IfErr};
ghost use Rattle.tx_lint.specs.Lints.{AreWarningsOf, IsLintOf, IsLookOf, lint_held, lint_status};

use crate::entry::Entry;
use crate::gathering::{Told, gather};
use crate::lines::{Reading, read_lines};
use crate::warning::Warning;
use crate::warnings::warnings_of;
use std::alloc::{Allocator, Global};
use std::marker::Model;
use tx_plan::Plan;
use tx_risk::Risks;
use tx_text::{NoMemory, WholeTextFault};

/// The faults or warnings of a plan's text.
#[derive(Drop)]
pub enum Lint<'t, A: Allocator = Global> {
    /// The text is refused: what is told of its faults, in order of its lines.
    Faults(Vec<Told<'t>, A>),
    /// The text is right: its plan, the named risks, and the warnings, each with the number of its
    /// line, in order of the lines.
    Warnings(Plan<A>, Risks<A>, Vec<(u64, Warning), A>),
}

impl<'t, A: Allocator> Lint<'t, A> {
    /// The exit status: 0 without faults and warnings, 1 after warnings alone, 2 after faults.
    pub fn status(&self) -> u8
        ensures { result ≡ lint_status (lint_held self.now) }
    {
        match self {
            Lint::Faults(_) => 2,
            Lint::Warnings(_, _, warnings) => { if warnings.is_empty() { 0 } else { 1 } }
        }
    }
}

/// The plan of a text without faults, and the lines of its entries.
#[derive(Drop)]
pub struct RightText<A: Allocator = Global> {
    plan: Plan<A>,
    entries: Vec<(u64, Entry), A>,
}

impl<A: Allocator> Model for RightText<A> {
    ghost use Rattle.std.specs.Prelude.{ℕ, List};
    ghost use Rattle.tx_plan.specs.Plan.{Plan};
    ghost use Rattle.tx_lint.specs.declared.entry.Entry.{Entry};

    ghost Value = { Plan × List (ℕ × Entry) };

    ghost view = { λ t. (t.plan, t.entries.items) };
}

impl<A: Allocator> RightText<A> {
    /// The plan.
    pub fn plan(&self) -> &Plan<A>
        ensures { result.now ≡ self.now.0 }
    {
        &self.plan
    }
}

impl<A: Allocator + Copy> RightText<A> {
    /// The warnings of the plan, with these risks. `Err` is lack of memory.
    pub fn warned(self, alloc: A, risks: Risks<A>) -> Result<Lint<'static, A>, NoMemory>
        ensures { IfOk result (λ l. AreWarningsOf self.0 self.1 risks (lint_held l)) }
    {
        let warnings = warnings_of(alloc, &self.plan, &self.entries, &risks)?;
        Ok(Lint::Warnings(self.plan, risks, warnings))
    }
}

/// A plan's text that was looked through.
#[derive(Drop)]
pub enum Look<'t, A: Allocator = Global> {
    /// It is refused: what is told of its faults, in order of its lines.
    Faults(Vec<Told<'t>, A>),
    /// It is right.
    Right(RightText<A>),
}

/// Looks a plan's text through. `Err` is lack of memory.
pub fn look_through<A: Allocator + Copy>(
    alloc: A,
    text: &[u8],
) -> Result<Look<'_, A>, WholeTextFault>
    ensures look { IfOk result (IsLookOf text.now) }
    ensures memory { IfErr result (λ fault. fault ≡ WholeTextFault.NoMemory) }
{
    let Reading {
        part: _,
        version: _,
        plan,
        entries,
        faults,
    } = read_lines(alloc, text)?;
    if !faults.is_empty() {
        return Ok(Look::Faults(gather(alloc, &faults)?));
    }
    let plan = plan.finish();
    Ok(Look::Right(RightText { plan, entries }))
}

/// Looks a plan's text through: what is told of its faults, or where it has none all warnings of its plan,
/// without named risks. `Err` is lack of memory.
pub fn lint_plan<A: Allocator + Copy>(alloc: A, text: &[u8]) -> Result<Lint<'_, A>, WholeTextFault>
    ensures lint { IfOk result (λ l. IsLintOf text.now [] (lint_held l)) }
    ensures memory { IfErr result (λ fault. fault ≡ WholeTextFault.NoMemory) }
{
    match look_through(alloc, text)? {
        Look::Faults(faults) => Ok(Lint::Faults(faults)),
        Look::Right(right) => Ok(right.warned(alloc, Risks::none(alloc))?),
    }
}
