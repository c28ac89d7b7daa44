// The setting up of a call: it is keyed, and then routed and confirmed exchange by exchange.
ghost use Rattle.std.specs.Prelude.{◌≡◌, ◌<◌, ◌≤◌, ◌+◌, IfOk, IsOk, OnOk, OnErr, None, ◌-◌, ◌^◌, Some, is_some, true, false};
ghost use Rattle.std.specs.VecDeque.{deque_len, deque_capacity};
ghost use Rattle.std.specs.FinSet as set;
ghost use Rattle.tx_machine.specs.declared.event.Event.TheVariants.{Key, Route, Confirm};
ghost use Rattle.tx_machine.specs.declared.deciding.Decision.TheVariants.{Answer, Connect, Seize};
ghost use Rattle.tx_machine.specs.declared.reply.Reply.TheVariants.{Connected, Seized, At};
ghost use Rattle.tx_machine.specs.declared.open_call.Phase.TheVariants.{Calling};
ghost use Rattle.tx_machine.specs.Step.{accepted};
ghost use Rattle.tx_machine.specs.Refusals.{refusal};
ghost use Rattle.tx_machine.specs.inner.Decided.{carried_out};
ghost use Rattle.tx_machine.specs.Confirming.{far_of};
ghost use Rattle.tx_engine.specs.inner.KeptCalls.{HasRoom, Kept, kept_at};
ghost use Rattle.tx_engine.specs.inner.Sound.{IsSound, HasTicketRoom, state_of, IsUnder};
ghost use Rattle.tx_engine.specs.inner.Decided.{IsDecided};

use crate::engine::{Engine, EngineState};
use std::alloc::Allocator;
use std::collections::VecDeque;
use tx_machine::{
    Cause, Decision, Hop, OpenCall, Phase, Reply, Service, Ticket, decide, exchange_of, far_of,
};
use tx_plan::{Circuit, ExchangeId, Line};
use tx_text::{Figures, NoMemory};

impl<'p, A: Allocator + Copy> EngineState<'p, A> {
    /// A line calls.
    pub(crate) fn key(&mut self, line: Line, keyed: Figures) -> Result<Reply, NoMemory>
        requires sound { IsSound self.old }
        requires open { refusal self.old.plan.now (state_of self.old) (Key line keyed) ≡ None }
        ensures sound { IsSound self.new }
        ensures plan { self.new.plan.now ≡ self.old.plan.now }
        ensures ok { IfOk result (λ reply. accepted self.old.plan.now (state_of self.old)
            (Key line keyed) ≡ (reply, state_of self.new)) }
        ensures err { OnErr result (state_of self.new ≡ state_of self.old) }
    {
        self.reserve_call()?;
        self.lines.engage(&line);
        let number = self.numbers + 1;
        let call = OpenCall {
            number,
            line,
            keyed,
            keyed_at: self.events + 1,
            hops: Vec::new(self.alloc),
            phase: Phase::Standing,
            collided: false,
        };
        self.calls.open(call);
        self.numbers = number;
        Ok(Reply::Keyed(number))
    }

    /// Makes room for one more call, for its ticket and for the status of its line. Where there is
    /// some, no memory is asked for.
    fn reserve_call(&mut self) -> Result<(), NoMemory>
        requires { IsSound self.old }
        ensures sound { IsSound self.new }
        ensures plan { self.new.plan.now ≡ self.old.plan.now }
        ensures numbers { self.new.numbers ≡ self.old.numbers }
        ensures events { self.new.events ≡ self.old.events }
        ensures state { state_of self.new ≡ state_of self.old }
        ensures calls { OnOk result (HasRoom self.new.calls) }
        ensures tickets { OnOk result (HasTicketRoom self.new) }
        ensures lines { OnOk result (0 < self.new.lines.room) }
        ensures unasked { HasRoom self.old.calls → HasTicketRoom self.old → 0 < self.old.lines.room
            → IsOk result × (self.new ≡ self.old) }
    {
        self.calls.reserve_one()?;
        self.lines.reserve_one()?;
        reserve_tickets(&mut self.tickets, self.calls.len())
    }
}

/// Makes room for the tickets of so many open calls and of one more, where there is none. The room
/// at least doubles, so that few calls take any.
fn reserve_tickets<A: Allocator>(
    tickets: &mut VecDeque<Ticket<A>, A>,
    calls: usize,
) -> Result<(), NoMemory>
    requires { deque_len tickets.old + calls ≤ deque_capacity tickets.old }
    ensures items { tickets.new.items ≡ tickets.old.items }
    ensures room { deque_len tickets.new + calls ≤ deque_capacity tickets.new }
    ensures ok { OnOk result (deque_len tickets.new + (calls + 1) ≤ deque_capacity tickets.new) }
    ensures unasked { deque_len tickets.old + (calls + 1) ≤ deque_capacity tickets.old
        → IsOk result × (tickets.new ≡ tickets.old) }
{
    if tickets.capacity() - tickets.len() <= calls {
        tickets.reserve((calls + 1).saturating_add(calls))?;
    }
    Ok(())
}

impl<'p, A: Allocator + Copy> Engine<'p, A> {
    /// A call is routed from where it stands.
    pub(crate) fn route(&mut self, number: u32) -> Result<Reply, NoMemory>
        requires { refusal self.old.plan self.old.state (Route number) ≡ None }
        ensures plan { self.new.plan ≡ self.old.plan }
        ensures ok { IfOk result (λ reply. accepted self.old.plan self.old.state
            (Route number) ≡ (reply, self.new.state)) }
        ensures err { OnErr result (self.new ≡ self.old) }
    {
        let key = self.inner.key_of(number);
        match decide(self, self.inner.calls.at(key)) {
            Decision::Answer(service) => Ok(self.inner.answer(key, service)),
            Decision::Connect(line) => {
                self.inner.connect(key, &line)?;
                Ok(Reply::Connected(line))
            }
            Decision::Seize(circuit) => {
                self.inner.seize(key, &circuit)?;
                Ok(Reply::Seized(circuit))
            }
        }
    }
}

impl<'p, A: Allocator + Copy> EngineState<'p, A> {
    /// The call under the key is answered with a service code, and ends.
    fn answer(&mut self, key: usize, service: Service) -> Reply
        requires sound { IsSound self.old }
        requires there { is_some (kept_at self.old.calls key) ≡ true }
        requires events { self.old.events < 2 ^ 64 - 1 }
        ensures sound { IsSound self.new }
        ensures plan { self.new.plan.now ≡ self.old.plan.now }
        ensures step { (k : Kept) → kept_at self.old.calls key ≡ Some k
            → carried_out self.old.plan.now (state_of self.old) k.call.number (Answer service)
            ≡ (result, state_of self.new) }
    {
        self.end_call(key, Cause::Service(service));
        Reply::Answered(service)
    }

    /// The call under the key is connected to the line.
    fn connect(&mut self, key: usize, line: &Line) -> Result<(), NoMemory>
        requires sound { IsSound self.old }
        requires decided { (k : Kept) × IsDecided self.old key k (Connect line.now) }
        ensures sound { IsSound self.new }
        ensures plan { self.new.plan.now ≡ self.old.plan.now }
        ensures ok { OnOk result ((k : Kept) → kept_at self.old.calls key ≡ Some k
            → carried_out self.old.plan.now (state_of self.old) k.call.number (Connect line.now)
            ≡ (Connected line.now, state_of self.new)) }
        ensures err { OnErr result (state_of self.new ≡ state_of self.old) }
    {
        self.lines.reserve_one()?;
        self.lines.engage(line);
        self.calls.set_phase(key, Phase::Connected(*line));
        Ok(())
    }

    /// The call under the key seizes the circuit from the exchange where it stands.
    fn seize(&mut self, key: usize, circuit: &Circuit) -> Result<(), NoMemory>
        requires sound { IsSound self.old }
        requires decided { (k : Kept) × IsDecided self.old key k (Seize circuit.now) }
        ensures sound { IsSound self.new }
        ensures plan { self.new.plan.now ≡ self.old.plan.now }
        ensures ok { OnOk result ((k : Kept) → kept_at self.old.calls key ≡ Some k
            → carried_out self.old.plan.now (state_of self.old) k.call.number (Seize circuit.now)
            ≡ (Seized circuit.now, state_of self.new)) }
        ensures err { OnErr result (state_of self.new ≡ state_of self.old) }
    {
        let here = exchange_of(self.plan, self.calls.at(key));
        self.calls.reserve_hop(key)?;
        let (first, _) = self.plan.ends(circuit.group);
        self.circuits.seize(circuit, here);
        self.keys.set(circuit, first == here, key);
        self.calls.set_phase(key, Phase::Calling(*circuit));
        Ok(())
    }

    /// A call is confirmed.
    pub(crate) fn confirm(&mut self, number: u32) -> Reply
        requires sound { IsSound self.old }
        requires open { refusal self.old.plan.now (state_of self.old) (Confirm number) ≡ None }
        ensures sound { IsSound self.new }
        ensures plan { self.new.plan.now ≡ self.old.plan.now }
        ensures step { accepted self.old.plan.now (state_of self.old) (Confirm number)
            ≡ (result, state_of self.new) }
    {
        let key = self.key_of(number);
        let circuit = match self.calls.at(key).phase {
            Phase::Calling(circuit) => circuit,
            Phase::Standing | Phase::Connected(_) => unreachable!(),
        };
        let far = far_of(self.plan, self.calls.at(key), &circuit);
        if self.circuits.is_seized(&circuit, far) {
            return self.meet(number, key, &circuit, far);
        }
        self.go_on(number, key, &circuit, far);
        Reply::At(far)
    }

    /// The call under the key goes on over its circuit, which no other call has seized.
    fn go_on(&mut self, number: u32, key: usize, circuit: &Circuit, far: ExchangeId)
        requires sound { IsSound self.old }
        requires calls { (k : Kept) × IsUnder self.old.calls number key k × (k.call.phase
            ≡ Calling circuit.now) × (far ≡ far_of self.old.plan.now k.call circuit.now) }
        requires alone { set.contains self.old.circuits.seized (circuit.now, far) ≡ false }
        ensures sound { IsSound self.new }
        ensures plan { self.new.plan.now ≡ self.old.plan.now }
        ensures step { accepted self.old.plan.now (state_of self.old) (Confirm number)
            ≡ (At far, state_of self.new) }
    {
        self.circuits.hold(circuit);
        self.keys.set_both(circuit, key);
        let hop = Hop {
            circuit: *circuit,
            far,
        };
        self.calls.go_on(key, hop);
    }
}
