// Two plans over their joined network.
ghost use Rattle.std.specs.Prelude.{◌≡◌, None, IfOk, IfErr, OnOk};
ghost use Rattle.tx_plan.specs.Mixtures.{SameNetwork};
ghost use Rattle.tx_join.specs.Joined.{joined_old, joined_new};
ghost use Rattle.tx_join.specs.Refusals.{join_refusal, IsRefusedAs};
ghost use Rattle.tx_join.specs.declared.refusal.JoinRefusal.TheVariants.{NoMemory};
ghost use Rattle.tx_join.specs.Laws.{CanBeJoined, AreOverBoth, HaveTheirLists};

use crate::network::joined_network;
use crate::over::plan_over;
use crate::refusal::JoinRefusal;
use crate::refusing::refusal_of;
use std::alloc::{Allocator, Global};
use tx_plan::Plan;

/// Two plans over their joined network.
#[derive(Drop)]
pub struct Joined<A: Allocator = Global> {
    /// The old plan.
    pub old: Plan<A>,
    /// The new plan.
    pub new: Plan<A>,
}

/// Two plans over their joined network. It has the exchanges, codes and groups of the old plan, and
/// then those that the new one has more, by their names, and the lines of the old plan. A list or a
/// bar of an exchange or a code that one plan alone has is in both, and a code that the new plan
/// alone has is barred everywhere but at home. `Err` is the first refusal, or lack of memory where
/// none applies.
pub fn join<A: Allocator + Copy>(
    alloc: A,
    old: &Plan<A>,
    new: &Plan<A>,
) -> Result<Joined<A>, JoinRefusal>
    ensures old { IfOk result (λ j. j.old ≡ joined_old old.now new.now) }
    ensures new { IfOk result (λ j. j.new ≡ joined_new old.now new.now) }
    ensures network { IfOk result (λ j. AreOverBoth old.now new.now j.old j.new) }
    ensures lists { IfOk result (λ j. HaveTheirLists old.now new.now j.old j.new) }
    ensures unrefused { OnOk result (join_refusal old.now new.now ≡ None) }
    ensures refused { IfErr result (IsRefusedAs old.now new.now) }
{
    old.rules();
    new.rules();
    if let Some(refusal) = refusal_of(old, new) {
        return Err(refusal);
    }
    let before = old_over(alloc, old, new)?;
    let after = new_over(alloc, old, new)?;
    Ok(Joined {
        old: before,
        new: after,
    })
}

/// The old plan over the joined network.
fn old_over<A: Allocator + Copy>(
    alloc: A,
    old: &Plan<A>,
    new: &Plan<A>,
) -> Result<Plan<A>, JoinRefusal>
    requires { CanBeJoined old.now new.now }
    ensures plan { IfOk result (λ p. p ≡ joined_old old.now new.now) }
    ensures memory { IfErr result (λ e. e ≡ NoMemory) }
{
    let network = joined_network(alloc, old, new)?;
    Ok(plan_over(alloc, network, old, new, old.codes())?)
}

/// The new plan over it.
fn new_over<A: Allocator + Copy>(
    alloc: A,
    old: &Plan<A>,
    new: &Plan<A>,
) -> Result<Plan<A>, JoinRefusal>
    requires { CanBeJoined old.now new.now }
    ensures plan { IfOk result (λ p. p ≡ joined_new old.now new.now) }
    ensures memory { IfErr result (λ e. e ≡ NoMemory) }
{
    let network = joined_network(alloc, old, new)?;
    Ok(plan_over(alloc, network, new, old, old.codes())?)
}
