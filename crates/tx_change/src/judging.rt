// The judgement on a change into a plan of any network.
ghost use Rattle.std.specs.Prelude.{IfOk};
ghost use Rattle.tx_plan.specs.Mixtures.{SameNetwork};
ghost use Rattle.tx_change.specs.ChangeAnswers.{IsRightVerdict};

use crate::changing::change;
use std::alloc::{Allocator, Global};
use tx_audit::judge;
use tx_cert::Cert;
use tx_join::Joined;
use tx_plan::{Limits, Plan};
use tx_rank::{Finding, Ranking};
use tx_text::NoMemory;

/// What the change of a plan into another one comes to.
#[derive(Drop)]
pub enum ChangeVerdict<A: Allocator = Global> {
    /// It is sound, as this certificate of both plans over their joined network shows, and so is
    /// the new plan as it is.
    Sound(Cert<A>),
    /// Not every mixture can be certified: the findings, in their order.
    Unsound(Vec<Finding<A>, A>),
    /// Each mixture can be certified, but not the new plan as it is: its findings, in their order.
    NewUnsound(Vec<Finding<A>, A>),
}

/// Judges the change of a plan into another one, over their joined network, and then the new plan
/// as it is. `Err` means out of memory.
pub fn judge_change<A: Allocator + Copy>(
    alloc: A,
    joined: &Joined<A>,
    new: &Plan<A>,
    limits: Limits,
) -> Result<ChangeVerdict<A>, NoMemory>
    requires { SameNetwork joined.now.old joined.now.new }
    ensures { IfOk result (IsRightVerdict joined.now.old joined.now.new new.now
        limits.limit limits.spare) }
{
    match change(alloc, &joined.old, &joined.new, limits)? {
        Ranking::Found(cert) => match judge(alloc, new, limits)? {
            Ranking::Found(_) => Ok(ChangeVerdict::Sound(cert)),
            Ranking::Fails(findings) => Ok(ChangeVerdict::NewUnsound(findings)),
        },
        Ranking::Fails(findings) => Ok(ChangeVerdict::Unsound(findings)),
    }
}
