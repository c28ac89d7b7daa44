// Routing a call.
ghost use Rattle.std.specs.Prelude.{◌≡◌, ◌<◌, ◌+◌, ◌-◌, ◌^◌, IfOk, OnOk, OnErr, is_some, ◌==◌, true};
ghost use Rattle.tx_machine.specs.Step.{accepted};
ghost use Rattle.tx_machine.specs.Call.{call_of};
ghost use Rattle.tx_machine.specs.Routing.{set_call, in_phase};
ghost use Rattle.tx_plan.specs.Circuits.{is_circuit};
ghost use Rattle.tx_machine.specs.inner.Decided.{carried_out};
ghost use Rattle.tx_machine.specs.declared.event.Event.TheVariants.{Route};
ghost use Rattle.tx_machine.specs.declared.open_call.Phase.TheVariants.{Calling};

use crate::plain::Plain;
use crate::plain::calls::call_of;
use crate::plain::changing::{Change, change_numbered, reserve_hop};
use crate::plain::ended_calls::Ends;
use crate::{Cause, Decision, Phase, Reply, decide};
use std::alloc::Allocator;
use tx_text::NoMemory;

impl<'p, A: Allocator + Copy> Plain<'p, A> {
    /// What becomes of the call of the number.
    pub(crate) fn decision_of(&self, number: u32) -> Decision
        requires { is_some (call_of number self.now.state.calls) ≡ true }
        ensures { accepted self.now.plan self.now.state (Route number)
            ≡ carried_out self.now.plan self.now.state number result }
    {
        match call_of(self.calls.as_slice(), number) {
            None => unreachable!(),
            Some(call) => decide(self, call),
        }
    }

    /// A call is routed.
    pub(crate) fn route(&mut self, number: u32) -> Result<Reply, NoMemory>
        requires events { self.old.state.events < 2 ^ 64 - 1 }
        requires open { is_some (call_of number self.old.state.calls) ≡ true }
        ensures plan { self.new.plan ≡ self.old.plan }
        ensures ok { IfOk result (λ reply. accepted self.old.plan self.old.state
            (Route number) ≡ (reply, self.new.state)) }
        ensures err { OnErr result (self.new ≡ self.old) }
    {
        let decision = self.decision_of(number);
        match &decision {
            Decision::Answer(service) => {
                self.end(&Ends::Numbered(number), Cause::Service(*service));
                Ok(Reply::Answered(*service))
            }
            Decision::Connect(line) => {
                self.to_phase(number, Phase::Connected(*line))?;
                Ok(Reply::Connected(*line))
            }
            Decision::Seize(circuit) => {
                self.to_phase(number, Phase::Calling(*circuit))?;
                Ok(Reply::Seized(*circuit))
            }
        }
    }

    /// A call goes to another phase.
    pub(crate) fn to_phase(&mut self, number: u32, phase: Phase) -> Result<(), NoMemory>
        requires { (x : _) → phase ≡ Calling x → is_circuit self.old.plan x ≡ true }
        ensures plan { self.new.plan ≡ self.old.plan }
        ensures ok { OnOk result (self.new.state ≡ record self.old.state {
          calls = set_call number (in_phase phase) self.old.state.calls;
        }) }
        ensures err { OnErr result (self.new ≡ self.old) }
    {
        reserve_hop(self.calls.as_mut_slice(), number)?;
        change_numbered(self.calls.as_mut_slice(), number, &Change::To(phase));
        Ok(())
    }
}
