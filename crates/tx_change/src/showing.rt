// The mixture that a finding shows.
ghost use Rattle.std.specs.Prelude.{◌≡◌, IfOk};
ghost use Rattle.tx_plan.specs.Mixtures.{SameNetwork};
ghost use Rattle.tx_change.specs.Shown.{mixed_by, shown_by};

use crate::mixing::mixed_lists;
use crate::taking::Taking;
use std::alloc::Allocator;
use tx_plan::{CodeId, Plan};
use tx_rank::{Finding, Walk};
use tx_text::NoMemory;

/// The plan that a finding of a change shows: a mixture of the old plan and the new one, of which
/// the finding is true. It takes the old plan apart.
pub fn shown<A: Allocator + Copy>(
    alloc: A,
    old: Plan<A>,
    new: &Plan<A>,
    spare: u8,
    finding: &Finding<A>,
) -> Result<Plan<A>, NoMemory>
    requires { SameNetwork old new.now }
    ensures { IfOk result (λ m. m ≡ shown_by old new.now spare finding.now) }
{
    match finding {
        Finding::Ambiguous(_, _) => Ok(old),
        Finding::Loop(code, walk) => mix(alloc, old, new, *code, walk, None),
        Finding::Short(code, walk) => mix(alloc, old, new, *code, walk, Some(spare)),
        Finding::Long(code, walk) => mix(alloc, old, new, *code, walk, None),
    }
}

/// The old plan with what a walk takes from the new one.
fn mix<A: Allocator + Copy>(
    alloc: A,
    old: Plan<A>,
    new: &Plan<A>,
    code: CodeId,
    walk: &Walk<A>,
    spare: Option<u8>,
) -> Result<Plan<A>, NoMemory>
    requires { SameNetwork old new.now }
    ensures { IfOk result (λ m. m ≡ mixed_by old new.now code spare walk.now) }
{
    old.rules();
    new.rules();
    let taking = Taking {
        old: &old,
        code,
        walk,
        spare,
    };
    let lists = mixed_lists(alloc, &taking, &old, new)?;
    Ok(old.rerouted(lists.routes, lists.bars))
}
