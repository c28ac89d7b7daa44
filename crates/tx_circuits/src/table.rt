// The circuits of a plan.
ghost use Rattle.std.specs.Prelude.{◌≡◌, ◌<◌, ℕ, true, false, nat_lt, IsTrue, IfOk, IfSome, None, ◌↔◌, ◌⊎◌, length};
ghost use Rattle.std.specs.FinSet as set;
ghost use Rattle.tx_plan.specs.Circuits.{is_circuit, may_seize};
ghost use Rattle.tx_circuits.specs.Table.{Table, plan_of, all_free, is_free_at, is_down, first_free, IsSeizedBy, with_held, withdrawn, with_released, released_unless, with_failure};

use crate::groups::{GroupHead, Groups};
use crate::slot::CircuitState;
use std::alloc::{Allocator, Global};
use std::marker::Model;
use tx_plan::{Circuit, ExchangeId, GroupId, Plan};
use tx_text::NoMemory;

/// The states of all circuits of a plan, in one vector. `build` alone takes memory.
///
/// From `build` on, each group has for each of its ends a list of the circuits that are free there,
/// linked by index: rising from the least number, which the first end takes, and falling from the
/// greatest, which the other end takes. `first_free` reads the group's marks and the head of one
/// list.
/// A call that makes a circuit free at an end may walk the list of that end, and `fail` passes over
/// the group's circuits twice. No clause counts these steps.
#[derive(Drop)]
pub struct CircuitTable<A: Allocator = Global> {
    groups: Groups<A>,
}

impl<A: Allocator> Model for CircuitTable<A> {
    ghost use Rattle.tx_circuits.specs.Table.{Table, table_code};
    ghost use Rattle.tx_circuits.specs.inner.Seen.{table_of};

    ghost Value = { Table };

    ghost coded = { table_code };

    ghost view = { λ t. table_of t.groups };
}

impl<A: Allocator + Copy> CircuitTable<A> {
    /// The circuits of a plan: all free, and all groups up.
    pub fn build(alloc: A, plan: &Plan<A>) -> Result<Self, NoMemory>
        ensures { IfOk result (λ t. t ≡ all_free plan.now) }
    {
        let mut groups = Groups::with_room(alloc, plan.groups(), total(plan))?;
        for index in 0..plan.groups() {
            let group = GroupId::of(index);
            let ends = plan.ends(group);
            let head = GroupHead {
                a: ends.0,
                b: ends.1,
                direction: plan.direction(group),
                failed: false,
                blocked: false,
            };
            groups.add(head, plan.group_count(group) as usize)?;
        }
        Ok(CircuitTable { groups })
    }
}

// How many circuits a plan has.
fn total<A: Allocator>(plan: &Plan<A>) -> usize {
    let mut circuits = 0;
    for index in 0..plan.groups() {
        circuits += plan.group_count(GroupId::of(index)) as usize;
    }
    circuits
}

/// What is asked of the table.
impl<A: Allocator> CircuitTable<A> {
    /// Whether the plan has the group.
    pub fn has_group(&self, group: GroupId) -> bool
        ensures { result ≡ nat_lt group (length self.now.groups) }
    {
        group.index() < self.groups.len()
    }

    /// Whether the plan has the circuit.
    pub fn has_circuit(&self, circuit: &Circuit) -> bool
        ensures { result ≡ is_circuit (plan_of self.now) circuit.now }
    {
        self.groups.state(circuit).is_some()
    }

    /// Whether the exchange may seize the group.
    pub fn may_seize(&self, group: GroupId, exchange: ExchangeId) -> bool
        ensures { result ≡ may_seize (plan_of self.now) group exchange }
    {
        self.groups.end(group, exchange).is_some()
    }

    /// Whether the group has failed; a foreign one has not.
    pub fn is_failed(&self, group: GroupId) -> bool
        ensures { result ≡ set.contains self.now.failed group }
    {
        match self.groups.head(group) {
            Some(head) => head.failed,
            None => false,
        }
    }

    /// Whether the group is blocked; a foreign one is not.
    pub fn is_blocked(&self, group: GroupId) -> bool
        ensures { result ≡ set.contains self.now.blocked group }
    {
        match self.groups.head(group) {
            Some(head) => head.blocked,
            None => false,
        }
    }

    /// Whether the circuit is releasing; a foreign one is not.
    pub fn is_releasing(&self, circuit: &Circuit) -> bool
        ensures { result ≡ set.contains self.now.releasing circuit.now }
    {
        match self.groups.state(circuit) {
            Some(state) => state.releasing,
            None => false,
        }
    }

    /// Whether the circuit is out of service; a foreign one is not.
    pub fn is_out(&self, circuit: &Circuit) -> bool
        ensures { result ≡ set.contains self.now.out circuit.now }
    {
        match self.groups.state(circuit) {
            Some(state) => state.out,
            None => false,
        }
    }

    /// Whether a call carries the circuit; a foreign one is not carried.
    pub fn is_carried(&self, circuit: &Circuit) -> bool
        ensures { result ≡ set.contains self.now.carried circuit.now }
    {
        match self.groups.state(circuit) {
            Some(state) => state.carried,
            None => false,
        }
    }

    /// Whether the circuit is free at the exchange: not carried, not releasing, not out, and not
    /// seized from there. A foreign one is free.
    pub fn is_free(&self, circuit: &Circuit, exchange: ExchangeId) -> bool
        ensures { result ≡ is_free_at self.now exchange circuit.now }
    {
        !self.is_carried(circuit)
            && !self.is_releasing(circuit)
            && !self.is_out(circuit)
            && !self.is_seized(circuit, exchange)
    }

    /// Whether no exchange has seized the circuit.
    pub fn is_unseized(&self, circuit: &Circuit) -> bool
        ensures { IsTrue result
            ↔ ((exchange : ℕ) → set.contains self.now.seized (circuit.now, exchange) ≡ false) }
    {
        match self.groups.head(circuit.group) {
            Some(head) => !self.is_seized(circuit, head.a) && !self.is_seized(circuit, head.b),
            None => true,
        }
    }

    /// The exchange that has seized the circuit, if it alone has.
    pub fn seizer(&self, circuit: &Circuit) -> Option<ExchangeId>
        ensures alone { IfSome result (IsSeizedBy self.now circuit.now) }
        ensures none { result ≡ None → (exchange : ℕ)
            → IsSeizedBy self.now circuit.now exchange → ⊥ }
    {
        match self.groups.head(circuit.group) {
            Some(head) => self.seizer_of(circuit, head.a, head.b),
            None => None,
        }
    }

    // Of two exchanges, which alone may have seized the circuit, the one that has it alone.
    #[tactic(auto, using(crate::proofs::Steps::alone_far, crate::proofs::Steps::alone_near, crate::proofs::Steps::alone_one, crate::proofs::Steps::not_alone, crate::proofs::Steps::nobody))]
    fn seizer_of(&self, circuit: &Circuit, a: ExchangeId, b: ExchangeId) -> Option<ExchangeId>
        requires { (exchange : ℕ) → set.contains self.now.seized (circuit.now, exchange) ≡ true
            → (exchange ≡ a) ⊎ (exchange ≡ b) }
        ensures alone { IfSome result (IsSeizedBy self.now circuit.now) }
        ensures none { result ≡ None → (exchange : ℕ)
            → IsSeizedBy self.now circuit.now exchange → ⊥ }
    {
        if !self.is_seized(circuit, a) {
            if self.is_seized(circuit, b) {
                return Some(b);
            }
            return None;
        }
        if a == b {
            return Some(a);
        }
        if self.is_seized(circuit, b) {
            return None;
        }
        Some(a)
    }

    /// Whether the exchange has seized the circuit; an exchange that may not seize it has not.
    pub fn is_seized(&self, circuit: &Circuit, exchange: ExchangeId) -> bool
        ensures { result ≡ set.contains self.now.seized (circuit.now, exchange) }
    {
        match self.groups.end(circuit.group, exchange) {
            Some(end) => self.groups.has_seized(circuit, end),
            None => false,
        }
    }

    /// The circuit that the exchange takes next in a group: the least free number at the first end,
    /// the greatest at the other. None where the group is down or no circuit is free there.
    pub fn first_free(&self, group: GroupId, exchange: ExchangeId) -> Option<Circuit>
        requires { may_seize (plan_of self.now) group exchange ≡ true }
        ensures value { result ≡ first_free self.now exchange group }
        ensures known { IfSome result (λ c. is_circuit (plan_of self.now) c ≡ true) }
        ensures in_group { IfSome result (λ c. c.group ≡ group) }
        ensures free { IfSome result (λ c. is_free_at self.now exchange c ≡ true) }
    {
        if self.is_down(group) {
            return None;
        }
        let end = self.groups.known_end(group, exchange);
        match self.groups.first_index(group, end) {
            Some(index) => Some(Circuit {
                group,
                number: u32::from(index) + 1,
            }),
            None => None,
        }
    }

    // Whether the group has failed or is blocked.
    fn is_down(&self, group: GroupId) -> bool
        ensures { result ≡ is_down self.now group }
    {
        self.is_failed(group) || self.is_blocked(group)
    }
}

/// What is changed.
impl<A: Allocator> CircuitTable<A> {
    /// The exchange seizes a circuit that is free there.
    pub fn seize(&mut self, circuit: &Circuit, exchange: ExchangeId)
        requires known { is_circuit (plan_of self.old) circuit.now ≡ true }
        requires may { may_seize (plan_of self.old) circuit.now.group exchange ≡ true }
        requires free { is_free_at self.old exchange circuit.now ≡ true }
        ensures { self.new ≡ record self.old
            { seized = set.insert self.old.seized (circuit.now, exchange) } }
    {
        let end = self.groups.known_end(circuit.group, exchange);
        let state = self.groups.known_state(circuit);
        let to = state.with_seized(end, true);
        self.groups.set_state(circuit, to);
    }

    /// The exchange gives its seizure up.
    pub fn withdraw(&mut self, circuit: &Circuit, exchange: ExchangeId)
        requires { set.contains self.old.seized (circuit.now, exchange) ≡ true }
        ensures { self.new ≡ withdrawn self.old circuit.now exchange }
    {
        let end = self.groups.known_end(circuit.group, exchange);
        let state = self.groups.known_state(circuit);
        let to = state.with_seized(end, false);
        self.groups.set_state(circuit, to);
    }

    /// The exchange gives its seizure up, and the circuit is releasing unless the exchange at the
    /// far end has seized it too.
    pub fn give_up(&mut self, circuit: &Circuit, exchange: ExchangeId, far: ExchangeId)
        requires { set.contains self.old.seized (circuit.now, exchange) ≡ true }
        ensures { self.new ≡ released_unless far circuit.now
            (withdrawn self.old circuit.now exchange) }
    {
        let end = self.groups.known_end(circuit.group, exchange);
        let left = self.groups.known_state(circuit).with_seized(end, false);
        let to = if self.groups.seizes_in(left, circuit.group, far) {
            left
        } else {
            left.in_release()
        };
        self.groups.set_state(circuit, to);
    }

    /// A circuit that one end alone has seized is carried from now on.
    pub fn hold(&mut self, circuit: &Circuit)
        requires { (exchange : ℕ) × IsSeizedBy self.old circuit.now exchange }
        ensures { self.new ≡ with_held self.old circuit.now }
    {
        let state = self.groups.known_state(circuit);
        let to = CircuitState {
            seized_first: false,
            seized_other: false,
            carried: true,
            ..state
        };
        self.groups.set_state(circuit, to);
    }

    /// A circuit that nobody has seized is releasing from now on, and carried no longer.
    pub fn release(&mut self, circuit: &Circuit)
        requires known { is_circuit (plan_of self.old) circuit.now ≡ true }
        requires unseized { (exchange : ℕ)
            → set.contains self.old.seized (circuit.now, exchange) ≡ false }
        requires idle { set.contains self.old.releasing circuit.now ≡ false }
        ensures { self.new ≡ with_released self.old circuit.now }
    {
        let to = self.groups.known_state(circuit).in_release();
        self.groups.set_state(circuit, to);
    }

    /// The release of a circuit is confirmed.
    pub fn released(&mut self, circuit: &Circuit)
        requires { set.contains self.old.releasing circuit.now ≡ true }
        ensures { self.new ≡ record self.old
            { releasing = set.remove self.old.releasing circuit.now } }
    {
        let state = self.groups.known_state(circuit);
        let to = CircuitState {
            releasing: false,
            ..state
        };
        self.groups.set_state(circuit, to);
    }

    /// A circuit is put out of service. Seizures of it stay, and so does a call that carries it.
    pub fn put_out(&mut self, circuit: &Circuit)
        requires known { is_circuit (plan_of self.old) circuit.now ≡ true }
        requires in_service { set.contains self.old.out circuit.now ≡ false }
        ensures { self.new ≡ record self.old { out = set.insert self.old.out circuit.now } }
    {
        let state = self.groups.known_state(circuit);
        let to = CircuitState { out: true, ..state };
        self.groups.set_state(circuit, to);
    }

    /// A circuit is put in service again.
    pub fn put_in(&mut self, circuit: &Circuit)
        requires { set.contains self.old.out circuit.now ≡ true }
        ensures { self.new ≡ record self.old { out = set.remove self.old.out circuit.now } }
    {
        let state = self.groups.known_state(circuit);
        let to = CircuitState {
            out: false,
            ..state
        };
        self.groups.set_state(circuit, to);
    }

    /// A group fails: none of its circuits is seized, carried or releasing any longer.
    pub fn fail(&mut self, group: GroupId)
        requires known { group < length self.old.groups }
        requires sound { set.contains self.old.failed group ≡ false }
        ensures { self.new ≡ with_failure self.old group }
    {
        self.groups.clear(group);
        self.groups.set_failed(group, true);
    }

    /// A failed group is restored.
    pub fn restore(&mut self, group: GroupId)
        requires { set.contains self.old.failed group ≡ true }
        ensures { self.new ≡ record self.old { failed = set.remove self.old.failed group } }
    {
        self.groups.set_failed(group, false);
    }

    /// A group is blocked: `first_free` gives none of its circuits. Those that are seized or
    /// carried stay so.
    pub fn block(&mut self, group: GroupId)
        requires known { group < length self.old.groups }
        requires open { set.contains self.old.blocked group ≡ false }
        ensures { self.new ≡ record self.old { blocked = set.insert self.old.blocked group } }
    {
        self.groups.set_blocked(group, true);
    }

    /// A blocked group is open again.
    pub fn unblock(&mut self, group: GroupId)
        requires { set.contains self.old.blocked group ≡ true }
        ensures { self.new ≡ record self.old { blocked = set.remove self.old.blocked group } }
    {
        self.groups.set_blocked(group, false);
    }
}
