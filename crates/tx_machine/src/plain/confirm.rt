// Confirming a circuit.
ghost use Rattle.tx_machine.specs.declared.plain.confirm.Meeting.TheVariants.{GoesOn, Collides};
ghost use Rattle.std.specs.Prelude.{◌≡◌, ◌<◌, ◌+◌, ◌-◌, ◌^◌, Some, None, length, is_some, true, false};
ghost use Rattle.tx_machine.specs.Step.{accepted};
ghost use Rattle.tx_machine.specs.Call.{is_calling, call_of};
ghost use Rattle.tx_machine.specs.Refusals.{is_other};
ghost use Rattle.tx_machine.specs.Confirming.{confirmed, collide};
ghost use Rattle.tx_machine.specs.inner.Marks.{HasMark};
ghost use Rattle.tx_machine.specs.Seen.{call_seen};
ghost use Rattle.tx_machine.specs.inner.Met.{meeting_done, IsMet, IsOn};
ghost use Rattle.tx_machine.specs.declared.event.Event.TheVariants.{Confirm};
ghost use Rattle.tx_machine.specs.declared.open_call.Phase.TheVariants.{Calling};
ghost use Rattle.tx_machine.specs.declared.plain.changing.Change.TheVariants.{Carry};

use crate::plain::Plain;
use crate::plain::calls::{call_of, rival_of};
use crate::plain::changing::{Change, change_numbered};
use crate::plain::ended_calls::Ends;
use crate::{Cause, Hop, OpenCall, Phase, Reply, Service, far_of};
use std::alloc::Allocator;
use tx_plan::Circuit;

/// What a call meets on the circuit that it has seized.
#[derive(Clone, Copy)]
pub(crate) enum Meeting {
    /// Nobody: it goes on over the hop.
    GoesOn(Hop),
    /// Another call: each of the two had collided before at its exchange, or not.
    Collides {
        circuit: Circuit,
        collided: bool,
        other: u32,
        other_collided: bool,
    },
}

impl<'p, A: Allocator + Copy> Plain<'p, A> {
    /// What a call meets that confirms.
    pub(crate) fn meeting_of(&self, number: u32) -> Meeting
        requires open { is_some (call_of number self.now.state.calls) ≡ true }
        requires calling { is_other is_calling (call_of number self.now.state.calls) ≡ false }
        ensures done { accepted self.now.plan self.now.state (Confirm number)
            ≡ meeting_done self.now.plan self.now.state number result }
        ensures met { IsMet self.now.plan self.now.state number result }
    {
        match call_of(self.calls.as_slice(), number) {
            None => unreachable!(),
            Some(call) => self.meeting(call),
        }
    }

    /// What this call meets.
    pub(crate) fn meeting(&self, call: &OpenCall<A>) -> Meeting
        requires calling { is_calling call.now.phase ≡ true }
        ensures done { confirmed self.now.plan self.now.state (call_seen call.now) call.now.phase
            ≡ meeting_done self.now.plan self.now.state call.now.number result }
        ensures on { IsOn call.now.phase result }
    {
        match &call.phase {
            Phase::Calling(circuit) => {
                let plan = self.plan;
                let far = far_of(plan, call, circuit);
                match rival_of(plan, self.calls.as_slice(), call.number, circuit, far) {
                    None => Meeting::GoesOn(Hop {
                        circuit: *circuit,
                        far,
                    }),
                    Some(other) => Meeting::Collides {
                        circuit: *circuit,
                        collided: call.collided,
                        other: other.number,
                        other_collided: other.collided,
                    },
                }
            }
            Phase::Standing | Phase::Connected(_) => unreachable!(),
        }
    }

    /// A call is confirmed.
    pub(crate) fn confirm(&mut self, number: u32) -> Reply
        requires events { self.old.state.events < 2 ^ 64 - 1 }
        requires open { is_some (call_of number self.old.state.calls) ≡ true }
        requires calling { is_other is_calling (call_of number self.old.state.calls) ≡ false }
        ensures step { accepted self.old.plan self.old.state (Confirm number)
            ≡ (result, self.new.state) }
        ensures plan { self.new.plan ≡ self.old.plan }
    {
        let meeting = self.meeting_of(number);
        match &meeting {
            Meeting::GoesOn(hop) => self.carry(number, hop),
            Meeting::Collides {
                circuit,
                collided,
                other,
                other_collided,
            } => self.clash(number, circuit, *collided, *other, *other_collided),
        }
    }

    /// A call goes on over the circuit that it seizes.
    pub(crate) fn carry(&mut self, number: u32, hop: &Hop) -> Reply
        requires { IsMet self.old.plan self.old.state number (GoesOn hop.now) }
        ensures step { meeting_done self.old.plan self.old.state number (GoesOn hop.now)
            ≡ (result, self.new.state) }
        ensures plan { self.new.plan ≡ self.old.plan }
    {
        change_numbered(self.calls.as_mut_slice(), number, &Change::Carry(*hop));
        Reply::At(hop.far)
    }

    /// Two calls meet head on.
    pub(crate) fn clash(
        &mut self,
        number: u32,
        circuit: &Circuit,
        collided: bool,
        other: u32,
        other_collided: bool,
    ) -> Reply
        requires events { self.old.state.events < 2 ^ 64 - 1 }
        requires met { HasMark (length self.old.plan.groups) circuit.now }
        ensures step { meeting_done self.old.plan self.old.state number
            (Collides circuit.now collided other other_collided) ≡ (result, self.new.state) }
        ensures plan { self.new.plan ≡ self.old.plan }
    {
        self.collide(number, other, circuit);
        self.end(
            &Ends::Collided {
                a: number,
                a_ends: collided,
                b: other,
                b_ends: other_collided,
            },
            Cause::Service(Service::Nc),
        );
        Reply::HeadOn {
            a: number,
            b: other,
            a_stands: !collided,
            b_stands: !other_collided,
        }
    }

    /// Two calls collide on a circuit, which is releasing then.
    pub(crate) fn collide(&mut self, a: u32, b: u32, circuit: &Circuit)
        requires { HasMark (length self.old.plan.groups) circuit.now }
        ensures { self.new ≡ record self.old { state = collide a b circuit.now self.old.state } }
    {
        change_numbered(self.calls.as_mut_slice(), a, &Change::ThrowBack);
        change_numbered(self.calls.as_mut_slice(), b, &Change::ThrowBack);
        self.marks.releasing.set(circuit);
    }
}
