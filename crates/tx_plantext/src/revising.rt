// The text of a plan, revised for another plan of its network.
ghost use Rattle.std.specs.Prelude.{◌≡◌, IfOk, OnOk};
ghost use Rattle.tx_plantext.specs.Revised.{IsRevised};

use crate::draft::draft_text;
use crate::fault::{PlanFault, PlanWord};
use crate::reading_back::read_back;
use crate::same_lines::same_lines_stand;
use std::alloc::Allocator;
use tx_plan::{Plan, PlanRefusal};
use tx_text::{FaultKind, FrameFault, NoMemory};

/// Why a text is not revised.
#[derive(Clone, Copy)]
pub enum Unrevised {
    /// The text that was made does not say the plan, as where the plan is of another network.
    OtherPlan,
    /// No memory was left.
    NoMemory,
}

impl From<NoMemory> for Unrevised {
    fn from(_: NoMemory) -> Unrevised {
        Unrevised::NoMemory
    }
}

impl From<PlanFault> for Unrevised {
    fn from(fault: PlanFault) -> Unrevised {
        match fault.kind {
            FaultKind::Frame(FrameFault::NoMemory)
            | FaultKind::Word(PlanWord::Refused(PlanRefusal::NoMemory)) => Unrevised::NoMemory,
            _ => Unrevised::OtherPlan,
        }
    }
}

/// The text of a plan with the lists and the bars of another plan of its network. A line that says
/// the same stands as it is, with its blanks and its comment.
///
/// The text that is made is read back. It is given only if it says the plan, and all those lines
/// stand in it.
pub fn revise<A: Allocator + Copy>(
    alloc: A,
    text: &[u8],
    plan: &Plan<A>,
) -> Result<Vec<u8, A>, Unrevised>
    ensures { IfOk result (λ t. IsRevised text.now plan.now t.items) }
{
    let revised = draft_text(alloc, text, plan)?;
    match look_through(alloc, text, plan, revised.as_slice()) {
        Ok(()) => Ok(revised),
        Err(fault) => {
            drop(revised);
            Err(fault)
        }
    }
}

/// Looks through a text that was made: whether it is the first one, revised for the plan.
fn look_through<A: Allocator + Copy>(
    alloc: A,
    text: &[u8],
    plan: &Plan<A>,
    revised: &[u8],
) -> Result<(), Unrevised>
    ensures { OnOk result (IsRevised text.now plan.now revised.now) }
{
    if !same_lines_stand(plan, text, revised) {
        return Err(Unrevised::OtherPlan);
    }
    read_back(alloc, revised, plan)
}
