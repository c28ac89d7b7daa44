// Two calls that meet on a circuit.
ghost use Rattle.std.specs.Prelude.{◌≡◌, ◌≢◌, ℕ, ◌<◌, ◌-◌, ◌^◌, Some, true};
ghost use Rattle.std.specs.FinSet as set;
ghost use Rattle.tx_machine.specs.declared.cause.Cause.TheVariants.{Service as ByService};
ghost use Rattle.tx_machine.specs.declared.event.Event.TheVariants.{Confirm};
ghost use Rattle.tx_machine.specs.declared.open_call.Phase.TheVariants.{Calling};
ghost use Rattle.tx_machine.specs.declared.cause.Service.TheVariants.{Nc};
ghost use Rattle.tx_machine.specs.Confirming.{far_of, rival, collide};
ghost use Rattle.tx_machine.specs.Step.{accepted};
ghost use Rattle.tx_engine.specs.inner.KeptCalls.{Kept, kept_at};
ghost use Rattle.tx_engine.specs.inner.InTurn.{ended_if, pair_ended};
ghost use Rattle.tx_engine.specs.inner.Meeting.{AreMeeting, AreThrown, IsMet};
ghost use Rattle.tx_engine.specs.inner.Sound.{IsSound, IsUnder, state_of};

use crate::ending::throw_off;
use crate::engine::EngineState;
use std::alloc::Allocator;
use tx_machine::{Cause, Reply, Service};
use tx_plan::{Circuit, ExchangeId};

/// One of two calls that meet, with whether it had collided before at the exchange where it stands.
#[derive(Clone, Copy)]
pub(crate) struct Met {
    pub key: usize,
    pub number: u32,
    pub collided: bool,
}

impl<'p, A: Allocator + Copy> EngineState<'p, A> {
    /// The call under the key and its rival, which has seized the circuit from its far end, meet
    /// head on.
    pub(crate) fn meet(
        &mut self,
        number: u32,
        key: usize,
        circuit: &Circuit,
        far: ExchangeId,
    ) -> Reply
        requires sound { IsSound self.old }
        requires events { self.old.events < 2 ^ 64 - 1 }
        requires calls { (k : Kept) × IsUnder self.old.calls number key k × (k.call.phase
            ≡ Calling circuit.now) × (far ≡ far_of self.old.plan.now k.call circuit.now) }
        requires met { set.contains self.old.circuits.seized (circuit.now, far) ≡ true }
        ensures sound { IsSound self.new }
        ensures plan { self.new.plan.now ≡ self.old.plan.now }
        ensures step { accepted self.old.plan.now (state_of self.old) (Confirm number)
            ≡ (result, state_of self.new) }
    {
        let (first, _) = self.plan.ends(circuit.group);
        let other_key = self.keys.get(circuit, first == far);
        let one = self.met(key);
        let other = self.met(other_key);
        self.throw_back(key, other_key, circuit);
        self.end_collided(&one, &other);
        Reply::HeadOn {
            a: one.number,
            b: other.number,
            a_stands: !one.collided,
            b_stands: !other.collided,
        }
    }

    /// The call under the key, as it meets another.
    fn met(&self, key: usize) -> Met
        requires { (k : Kept) × (kept_at self.now.calls key ≡ Some k) }
        ensures { (k : Kept) → kept_at self.now.calls key ≡ Some k
            → result ≡ record { key = key; number = k.call.number; collided = k.call.collided } }
    {
        let call = self.calls.at(key);
        Met {
            key,
            number: call.number,
            collided: call.collided,
        }
    }

    /// The calls under the two keys lose the circuit on which they met.
    fn throw_back(&mut self, key: usize, other_key: usize, circuit: &Circuit)
        requires sound { IsSound self.old }
        requires meeting { (k d : Kept) × AreMeeting self.old key other_key circuit.now k d }
        ensures sound { IsSound self.new }
        ensures plan { self.new.plan.now ≡ self.old.plan.now }
        ensures state { (k d : Kept) → AreMeeting self.old key other_key circuit.now k d → state_of
            self.new ≡ collide k.call.number d.call.number circuit.now (state_of self.old) }
        ensures kept { (k d : Kept) → AreMeeting self.old key other_key circuit.now k d
            → AreThrown self.new.calls key other_key k d }
    {
        throw_off(
            &mut self.circuits,
            self.plan,
            self.calls.at(key),
            self.calls.at(other_key),
            circuit,
        );
        self.calls.throw_back(key);
        self.calls.throw_back(other_key);
    }

    /// Of two calls that met, those end that had collided before, the one of the lower number
    /// first.
    fn end_collided(&mut self, one: &Met, other: &Met)
        requires sound { IsSound self.old }
        requires events { self.old.events < 2 ^ 64 - 1 }
        requires differ { other.now.key ≢ one.now.key }
        requires one { IsMet self.old.calls one.now }
        requires other { IsMet self.old.calls other.now }
        ensures sound { IsSound self.new }
        ensures plan { self.new.plan.now ≡ self.old.plan.now }
        ensures events { self.new.events ≡ self.old.events }
        ensures state { state_of self.new ≡ pair_ended self.old.plan.now
            (ByService Nc) one.now.number one.now.collided other.now.number other.now.collided
            (state_of self.old) }
    {
        if one.number < other.number {
            self.end_if_collided(one);
            self.end_if_collided(other);
        } else {
            self.end_if_collided(other);
            self.end_if_collided(one);
        }
    }

    /// A call that met another ends, if it had collided before.
    fn end_if_collided(&mut self, met: &Met)
        requires sound { IsSound self.old }
        requires events { self.old.events < 2 ^ 64 - 1 }
        requires met { IsMet self.old.calls met.now }
        ensures sound { IsSound self.new }
        ensures plan { self.new.plan.now ≡ self.old.plan.now }
        ensures events { self.new.events ≡ self.old.events }
        ensures others { (key : ℕ) → key ≢ met.now.key
            → kept_at self.new.calls key ≡ kept_at self.old.calls key }
        ensures state { state_of self.new ≡ ended_if self.old.plan.now
            (ByService Nc) met.now.collided met.now.number (state_of self.old) }
    {
        if met.collided {
            self.end_call(met.key, Cause::Service(Service::Nc));
        }
    }
}
