// Changes of calls in a list.
ghost use Rattle.std.specs.Prelude.{◌≡◌, ◌<◌, ◌==◌, OnOk, map, length};
ghost use Rattle.tx_plan.specs.Among.{Among};
ghost use Rattle.tx_machine.specs.Routing.{set_call};
ghost use Rattle.tx_machine.specs.Seen.{call_seen};
ghost use Rattle.tx_machine.specs.inner.Seen.{changed_call, change_at, HasRoom, IsReady, CanChange};

use crate::{Hop, OpenCall, Phase};
use std::alloc::Allocator;
use tx_text::NoMemory;

/// What may become of a call that stays open.
#[derive(Clone, Copy)]
pub(crate) enum Change {
    /// It goes to another phase.
    To(Phase),
    /// It goes on over the circuit that it has seized.
    Carry(Hop),
    /// It loses its circuit by a collision.
    ThrowBack,
}

/// Makes room for a hop of a call with the number.
fn reserve_one<A: Allocator>(call: &mut OpenCall<A>, number: u32) -> Result<(), NoMemory>
    ensures seen { call_seen call.new ≡ call_seen call.old }
    ensures room { HasRoom call.old → HasRoom call.new }
    ensures ready { OnOk result (IsReady number call.new) }
{
    if call.number == number {
        call.hops.reserve(1)?;
    }
    Ok(())
}

/// Makes room for one more hop of the calls with the number.
pub(crate) fn reserve_hop<A: Allocator>(
    calls: &mut [OpenCall<A>],
    number: u32,
) -> Result<(), NoMemory>
    ensures seen { map call_seen calls.new ≡ map call_seen calls.old }
    ensures len { length calls.new ≡ length calls.old }
    ensures room { ((c : _) → Among c calls.old → HasRoom c)
        → (c : _) → Among c calls.new → HasRoom c }
    ensures ready { OnOk result ((c : _) → Among c calls.new → IsReady number c) }
{
    let mut at = 0;
    while at < calls.len() {
        reserve_one(&mut calls[at], number)?;
        at += 1;
    }
    Ok(())
}

/// Changes a call with the number.
fn change_one<A: Allocator>(call: &mut OpenCall<A>, number: u32, change: &Change)
    requires { CanChange change.now number call.old }
    ensures seen { call_seen call.new
        ≡ change_at number (changed_call change.now) (call_seen call.old) }
    ensures room { HasRoom call.old → HasRoom call.new }
{
    if call.number == number {
        match change {
            Change::To(phase) => call.phase = *phase,
            Change::Carry(hop) => {
                call.hops.push_reserved(*hop);
                call.phase = Phase::Standing;
                call.collided = false;
            }
            Change::ThrowBack => {
                call.phase = Phase::Standing;
                call.collided = true;
            }
        }
    }
}

/// Changes the calls with the number.
pub(crate) fn change_numbered<A: Allocator>(calls: &mut [OpenCall<A>], number: u32, change: &Change)
    requires { (c : _) → Among c calls.old → CanChange change.now number c }
    ensures seen { map call_seen calls.new
        ≡ set_call number (changed_call change.now) (map call_seen calls.old) }
    ensures len { length calls.new ≡ length calls.old }
    ensures room { ((c : _) → Among c calls.old → HasRoom c)
        → (c : _) → Among c calls.new → HasRoom c }
{
    let mut at = 0;
    while at < calls.len() {
        change_one(&mut calls[at], number, change);
        at += 1;
    }
}
