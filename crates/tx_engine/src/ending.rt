// Calls that end.
ghost use Rattle.std.specs.Prelude.{◌≡◌, ◌≢◌, ℕ, ◌<◌, ◌-◌, ◌^◌, is_some, Some, None, true};
ghost use Rattle.tx_machine.specs.declared.event.Event.TheVariants.{Clear};
ghost use Rattle.tx_machine.specs.Ending.{end_call, ticket_of};
ghost use Rattle.tx_machine.specs.Step.{accepted};
ghost use Rattle.tx_machine.specs.Refusals.{refusal};
ghost use Rattle.tx_engine.specs.inner.KeptCalls.{Kept, kept_at};
ghost use Rattle.tx_machine.specs.Seen.{call_seen};
ghost use Rattle.tx_engine.specs.inner.GivenBack.{released_all, given_back, thrown_off, freed_lines, CanReleaseAll, CanGiveBack, CanThrowOff};
ghost use Rattle.tx_engine.specs.inner.Sound.{IsSound, state_of};

use crate::engine::EngineState;
use std::alloc::Allocator;
use tx_circuits::CircuitTable;
use tx_lines::LineBook;
use tx_machine::{Cause, Hop, OpenCall, Party, Phase, Reply, Ticket, exchange_of, far_of};
use tx_plan::{Circuit, Plan};

impl<'p, A: Allocator + Copy> EngineState<'p, A> {
    /// A call is cleared.
    pub(crate) fn clear(&mut self, number: u32, party: Party) -> Reply
        requires sound { IsSound self.old }
        requires open { refusal self.old.plan.now
            (state_of self.old) (Clear number party) ≡ None }
        ensures sound { IsSound self.new }
        ensures plan { self.new.plan.now ≡ self.old.plan.now }
        ensures step { accepted self.old.plan.now (state_of self.old) (Clear number party)
            ≡ (result, state_of self.new) }
    {
        let key = self.key_of(number);
        let cause = match party {
            Party::Caller => Cause::ClearedByCaller,
            Party::Called => Cause::ClearedByCalled,
        };
        self.end_call(key, cause);
        Reply::Cleared
    }

    /// The call under the key ends: its lines are free, its circuits are given back, and its ticket
    /// is written.
    pub(crate) fn end_call(&mut self, key: usize, cause: Cause)
        requires sound { IsSound self.old }
        requires there { is_some (kept_at self.old.calls key) ≡ true }
        requires events { self.old.events < 2 ^ 64 - 1 }
        ensures sound { IsSound self.new }
        ensures plan { self.new.plan.now ≡ self.old.plan.now }
        ensures events { self.new.events ≡ self.old.events }
        ensures others { (other : ℕ) → other ≢ key
            → kept_at self.new.calls other ≡ kept_at self.old.calls other }
        ensures state { (k : Kept) → kept_at self.old.calls key ≡ Some k → state_of self.new
            ≡ end_call self.old.plan.now cause k.call.number (state_of self.old) }
    {
        let call = self.calls.take_out(key);
        free_lines(&mut self.lines, &call);
        give_back(&mut self.circuits, self.plan, &call);
        let ticket = ticket_of(self.plan, call, cause, self.events + 1);
        self.tickets.push_back_reserved(ticket);
    }
}

/// The ticket of a call that ends by this event.
fn ticket_of<A: Allocator>(plan: &Plan<A>, call: OpenCall<A>, cause: Cause, event: u64) -> Ticket<A>
    ensures { result ≡ ticket_of plan.now cause event (call_seen call) }
{
    Ticket {
        number: call.number,
        line: call.line,
        start: plan.home(call.line.code),
        keyed: call.keyed,
        cause,
        keyed_at: call.keyed_at,
        ended_at: event,
        path: call.hops,
    }
}

/// The lines of a call are free.
fn free_lines<A: Allocator>(lines: &mut LineBook<A>, call: &OpenCall<A>)
    ensures { lines.new ≡ record lines.old {
      engaged = freed_lines (call_seen call.now) lines.old.engaged;
      room = lines.new.room;
    } }
{
    lines.free(&call.line);
    match &call.phase {
        Phase::Connected(line) => lines.free(line),
        Phase::Standing => {}
        Phase::Calling(_) => {}
    }
}

/// A call gives all its circuits back: those of its hops are releasing, and so is the one that it
/// has seized, unless its far end has seized it too.
fn give_back<A: Allocator>(circuits: &mut CircuitTable<A>, plan: &Plan<A>, call: &OpenCall<A>)
    requires { CanGiveBack plan.now (call_seen call.now) circuits.old }
    ensures { circuits.new ≡ given_back plan.now (call_seen call.now) circuits.old }
{
    release_hops(circuits, &call.hops);
    match &call.phase {
        Phase::Calling(circuit) => {
            let exchange = exchange_of(plan, call);
            let far = far_of(plan, call, circuit);
            circuits.give_up(circuit, exchange, far);
        }
        Phase::Standing => {}
        Phase::Connected(_) => {}
    }
}

/// The circuits of these hops are releasing.
fn release_hops<A: Allocator>(circuits: &mut CircuitTable<A>, hops: &[Hop])
    requires { CanReleaseAll circuits.old hops.now }
    ensures { circuits.new ≡ released_all circuits.old hops.now }
{
    for hop in hops {
        circuits.release(&hop.circuit);
    }
}

/// Two calls lose the circuit on which they met.
pub(crate) fn throw_off<A: Allocator>(
    circuits: &mut CircuitTable<A>,
    plan: &Plan<A>,
    call: &OpenCall<A>,
    other: &OpenCall<A>,
    circuit: &Circuit,
)
    requires { CanThrowOff plan.now (call_seen call.now)
        (call_seen other.now) circuit.now circuits.old }
    ensures { circuits.new ≡ thrown_off plan.now
        (call_seen call.now) (call_seen other.now) circuit.now circuits.old }
{
    let near = exchange_of(plan, call);
    let far = exchange_of(plan, other);
    circuits.withdraw(circuit, near);
    circuits.withdraw(circuit, far);
    circuits.release(circuit);
}
