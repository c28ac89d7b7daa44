// The indexed network: what it keeps, what it knows, and what it does with an event.
ghost use Rattle.std.specs.Prelude.{◌≡◌, IfOk, OnErr, None, true, is_some};
ghost use Rattle.tx_machine.specs.State.{opening};
ghost use Rattle.tx_machine.specs.Step.{accepted, takes_memory};
ghost use Rattle.tx_machine.specs.Refusals.{refusal};
ghost use Rattle.tx_engine.specs.inner.Sound.{IsSound, state_of, IsUnder};
ghost use Rattle.tx_machine.specs.Call.{call_of};
ghost use Rattle.tx_engine.specs.inner.KeptCalls.{Kept, calls_in};

use crate::circuit_keys::CircuitKeys;
use crate::open_calls::OpenCalls;
use std::alloc::{Allocator, Global};
use std::collections::VecDeque;
use std::marker::Model;
use tx_circuits::CircuitTable;
use tx_lines::{LineBook, Status};
use tx_machine::{Event, Facts, LineStatus, Network, Phase, Reply, Ticket, refusal_of};
use tx_plan::{Circuit, CodeId, ExchangeId, GroupId, Line, Plan};
use tx_text::NoMemory;
use tx_trie::CodeTrie;

/// The indexed network. It finds lines, circuits and calls by index. So the work of an event hardly
/// grows with the open calls, but where it takes more room: then it may move what it keeps. No
/// clause counts these steps.
#[derive(Drop)]
pub struct Engine<'p, A: Allocator = Global> {
    pub(crate) inner: EngineState<'p, A>,
}

impl<'p, A: Allocator> Model for Engine<'p, A> {
    ghost use Rattle.tx_machine.specs.State.{Net};

    ghost Value = { Net };

    ghost use Rattle.std.specs.FinSet as set;
    ghost use Rattle.std.specs.Ordering.{nat_cmp};
    ghost use Rattle.std.specs.Coded.{coded_ℕ, codes};
    ghost use Rattle.tx_plan.specs.Orders.{coded_circuit, coded_line, circuit_cmp, line_cmp};

    ghost coded = { Prim.hlevel (
      codes,
      set.code {R = nat_cmp} coded_ℕ,
      set.code
          {R = circuit_cmp} coded_circuit,
      set.code {R = line_cmp} coded_line,
    ) };

    ghost use Rattle.tx_engine.specs.inner.Sound.{IsSound, state_of};

    ghost view = { λ n. record { plan = n.inner.plan.now; state = state_of n.inner } };

    ghost invariant = { λ n. IsSound n.inner };
}

impl<'p, A: Allocator + Copy> Engine<'p, A> {
    /// The network in the opening state in which no number was given and no event accepted.
    pub fn new(alloc: A, plan: &'p Plan<A>) -> Result<Self, NoMemory>
        ensures { IfOk result (λ n. n ≡ record { plan = plan.now; state = opening 0 0 }) }
    {
        Engine::starting_at(alloc, plan, 0, 0)
    }

    /// The network in the opening state with so many call numbers given and so many events
    /// accepted.
    pub fn starting_at(
        alloc: A,
        plan: &'p Plan<A>,
        numbers: u32,
        events: u64,
    ) -> Result<Self, NoMemory>
        ensures { IfOk result
            (λ n. n ≡ record { plan = plan.now; state = opening numbers events }) }
    {
        let inner = EngineState::build(alloc, plan, numbers, events)?;
        Ok(Engine { inner })
    }

    /// One event that is not refused, before it is counted.
    fn accept(&mut self, event: &Event) -> Result<Reply, NoMemory>
        requires { refusal self.old.plan self.old.state event.now ≡ None }
        ensures plan { self.new.plan ≡ self.old.plan }
        ensures ok { IfOk result (λ reply. accepted self.old.plan self.old.state event.now
            ≡ (reply, self.new.state)) }
        ensures err { OnErr result (self.new ≡ self.old) }
        ensures memory { OnErr result (takes_memory event.now ≡ true) }
    {
        match event {
            Event::Key { line, keyed } => return self.inner.key(*line, *keyed),
            Event::Route(number) => return self.route(*number),
            Event::Confirm(number) => return Ok(self.inner.confirm(*number)),
            Event::Clear { call, party } => return Ok(self.inner.clear(*call, *party)),
            Event::Fail(group) => return Ok(self.inner.fail(*group)),
            Event::Released(circuit) => self.inner.circuits.released(circuit),
            Event::Restore(group) => self.inner.circuits.restore(*group),
            Event::Block(group) => self.inner.circuits.block(*group),
            Event::Unblock(group) => self.inner.circuits.unblock(*group),
            Event::CircuitOut(circuit) => self.inner.circuits.put_out(circuit),
            Event::CircuitIn(circuit) => self.inner.circuits.put_in(circuit),
            Event::LineFault(line) => {
                self.inner.lines.reserve_one()?;
                self.inner.lines.set_fault(line, true);
            }
            Event::LineMend(line) => self.inner.lines.set_fault(line, false),
            Event::LineAway(line) => {
                self.inner.lines.reserve_one()?;
                self.inner.lines.set_away(line, true);
            }
            Event::LineBack(line) => self.inner.lines.set_away(line, false),
        }
        Ok(Reply::Done)
    }
}

impl<'p, A: Allocator + Copy> Network for Engine<'p, A> {
    type A = A;

    ghost plan = { λ n. n.plan };

    ghost state = { λ n. n.state };

    fn apply(&mut self, event: Event) -> Result<Reply, NoMemory> {
        match refusal_of(self, &event) {
            Some(refusal) => Ok(Reply::Refused(refusal)),
            None => {
                let reply = self.accept(&event)?;
                self.inner.events += 1;
                Ok(reply)
            }
        }
    }

    fn next_ticket(&mut self) -> Option<Ticket<A>> {
        self.inner.tickets.pop_front()
    }

    fn open_calls(&self) -> u64 {
        self.inner.calls.len() as u64
    }

    fn events(&self) -> u64 {
        self.inner.events
    }
}

impl<'p, A: Allocator + Copy> Facts for Engine<'p, A> {
    type A = A;

    ghost plan = { λ n. n.plan };

    ghost state = { λ n. n.state };

    fn plan(&self) -> &Plan<A> {
        self.inner.plan
    }

    fn phase_of(&self, number: u32) -> Option<Phase> {
        match self.inner.calls.find(number) {
            Some(key) => Some(self.inner.calls.at(key).phase),
            None => None,
        }
    }

    fn code_of(&self, keyed: &[u8]) -> Option<CodeId> {
        self.inner.codes.read(keyed)
    }

    fn has_line(&self, line: &Line) -> bool {
        self.inner.lines.has(line)
    }

    fn status(&self, line: &Line) -> LineStatus {
        let Status {
            faulty,
            away,
            engaged,
        } = self.inner.lines.status(line);
        LineStatus {
            faulty,
            away,
            engaged,
        }
    }

    fn has_circuit(&self, circuit: &Circuit) -> bool {
        self.inner.circuits.has_circuit(circuit)
    }

    fn is_releasing(&self, circuit: &Circuit) -> bool {
        self.inner.circuits.is_releasing(circuit)
    }

    fn is_out(&self, circuit: &Circuit) -> bool {
        self.inner.circuits.is_out(circuit)
    }

    fn is_failed(&self, group: GroupId) -> bool {
        self.inner.circuits.is_failed(group)
    }

    fn is_blocked(&self, group: GroupId) -> bool {
        self.inner.circuits.is_blocked(group)
    }

    fn first_free(&self, group: GroupId, exchange: ExchangeId) -> Option<Circuit> {
        self.inner.circuits.first_free(group, exchange)
    }

    fn numbers_given(&self) -> u32 {
        self.inner.numbers
    }

    fn events_accepted(&self) -> u64 {
        self.inner.events
    }
}

/// What the engine keeps. Its methods see keys of calls, which the network that it stands for does
/// not show.
pub(crate) struct EngineState<'p, A: Allocator> {
    pub plan: &'p Plan<A>,
    pub alloc: A,
    pub codes: CodeTrie<A>,
    pub calls: OpenCalls<A>,
    pub keys: CircuitKeys<A>,
    pub lines: LineBook<A>,
    pub circuits: CircuitTable<A>,
    pub numbers: u32,
    pub events: u64,
    pub tickets: VecDeque<Ticket<A>, A>,
}

impl<A: Allocator> Drop for EngineState<'_, A> {
    fn drop(self) {
        let Self {
            plan: _,
            alloc: _,
            codes,
            calls,
            keys,
            lines,
            circuits,
            numbers: _,
            events: _,
            tickets,
        } = self;
        drop(codes);
        drop(calls);
        drop(keys);
        drop(lines);
        drop(circuits);
        drop(tickets);
    }
}

impl<'p, A: Allocator + Copy> EngineState<'p, A> {
    /// What the engine keeps in the opening state with so many numbers given and so many events
    /// accepted.
    pub(crate) fn build(
        alloc: A,
        plan: &'p Plan<A>,
        numbers: u32,
        events: u64,
    ) -> Result<Self, NoMemory>
        ensures sound { IfOk result (λ n. IsSound n) }
        ensures plan { IfOk result (λ n. n.plan.now ≡ plan.now) }
        ensures state { IfOk result (λ n. state_of n ≡ opening numbers events) }
    {
        plan.rules();
        let codes = CodeTrie::build(alloc, plan)?;
        let keys = CircuitKeys::build(alloc, plan)?;
        let lines = LineBook::build(alloc, plan)?;
        let circuits = CircuitTable::build(alloc, plan)?;
        Ok(EngineState {
            plan,
            alloc,
            codes,
            calls: OpenCalls::new(alloc),
            keys,
            lines,
            circuits,
            numbers,
            events,
            tickets: VecDeque::new(alloc),
        })
    }

    /// The key of the open call of a number.
    pub(crate) fn key_of(&self, number: u32) -> usize
        requires { is_some (call_of number (calls_in self.now.calls)) ≡ true }
        ensures { (k : Kept) × IsUnder self.now.calls number result k }
    {
        match self.calls.find(number) {
            Some(key) => key,
            None => unreachable!(),
        }
    }
}
