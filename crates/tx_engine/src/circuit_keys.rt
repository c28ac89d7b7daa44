// Keys of calls by circuit.
ghost use Rattle.std.specs.Prelude.{◌≡◌, true, IfOk, if◌then◌else◌};
ghost use Rattle.std.specs.Option.{option_map};
ghost use Rattle.tx_plan.specs.Circuits.{is_circuit};
ghost use Rattle.tx_plan.specs.Orders.{same_circuit};
ghost use Rattle.tx_plan.specs.declared.ids.Circuit.{Circuit};
ghost use Rattle.tx_engine.specs.inner.Keys.{HasKeys, keys_at, keys_of, pick, with_key};

use std::alloc::{Allocator, Global};
use std::marker::Model;
use tx_plan::{Circuit, GroupId, Plan};
use tx_text::NoMemory;

/// The key of the call that last had the circuit, at each end.
#[derive(Clone, Copy)]
pub(crate) struct EndKeys {
    pub first: usize,
    pub other: usize,
}

impl EndKeys {
    /// A call has the circuit from an end.
    pub(crate) fn set(&mut self, first: bool, key: usize)
        ensures { self.new ≡ with_key first key self.old }
    {
        if first {
            self.first = key;
        } else {
            self.other = key;
        }
    }
}

/// For each circuit of a plan, the keys of the calls that last had it from its first end and from
/// the other.
#[derive(Drop)]
pub(crate) struct CircuitKeys<A: Allocator = Global> {
    rows: Vec<Vec<EndKeys, A>, A>,
}

impl<A: Allocator> Model for CircuitKeys<A> {
    ghost use Rattle.std.specs.Prelude.{List, map};
    ghost use Rattle.tx_engine.specs.declared.circuit_keys.EndKeys.{EndKeys};

    ghost Value = { List (List EndKeys) };

    ghost view = { λ k. map (λ row. row.items) k.rows.items };
}

impl<A: Allocator + Copy> CircuitKeys<A> {
    /// Keys for each circuit of the plan.
    pub(crate) fn build(alloc: A, plan: &Plan<A>) -> Result<Self, NoMemory>
        ensures { IfOk result (λ k. (x : Circuit) → is_circuit plan.now x ≡ true → HasKeys k x) }
    {
        let mut rows = Vec::with_capacity(alloc, plan.groups())?;
        for index in 0..plan.groups() {
            let count = plan.group_count(GroupId::of(index)) as usize;
            let row = Vec::from_elem(alloc, EndKeys { first: 0, other: 0 }, count + 1)?;
            rows.push_reserved(row);
        }
        Ok(CircuitKeys { rows })
    }
}

impl<A: Allocator> CircuitKeys<A> {
    /// The key at an end of a circuit.
    pub(crate) fn get(&self, circuit: &Circuit, first: bool) -> usize
        ensures { result ≡ pick first (keys_of self.now circuit.now) }
    {
        let keys = self.keys(circuit);
        if first { keys.first } else { keys.other }
    }

    /// The keys at the ends of a circuit.
    fn keys(&self, circuit: &Circuit) -> EndKeys
        ensures { result ≡ keys_of self.now circuit.now }
    {
        match self.rows.get(circuit.group.index()) {
            None => EndKeys { first: 0, other: 0 },
            Some(row) => match row.get(circuit.number as usize) {
                None => EndKeys { first: 0, other: 0 },
                Some(keys) => *keys,
            },
        }
    }

    /// A call has the circuit from an end.
    pub(crate) fn set(&mut self, circuit: &Circuit, first: bool, key: usize)
        requires { HasKeys self.old circuit.now }
        ensures { (y : Circuit) → keys_at self.new y ≡ (if same_circuit y circuit.now
            then option_map (with_key first key) (keys_at self.old y) else keys_at self.old y) }
    {
        let mut keys = self.keys(circuit);
        keys.set(first, key);
        self.write(circuit, keys);
    }

    /// A call has the circuit from both ends.
    pub(crate) fn set_both(&mut self, circuit: &Circuit, key: usize)
        requires { HasKeys self.old circuit.now }
        ensures { (y : Circuit) → keys_at self.new y ≡ (if same_circuit y circuit.now
            then option_map (λ _. record { first = key; other = key }) (keys_at self.old y)
            else keys_at self.old y) }
    {
        self.write(
            circuit,
            EndKeys {
                first: key,
                other: key,
            },
        );
    }

    /// Writes the keys of a circuit.
    fn write(&mut self, circuit: &Circuit, keys: EndKeys)
        requires { HasKeys self.old circuit.now }
        ensures { (y : Circuit) → keys_at self.new y ≡ (if same_circuit y circuit.now
            then option_map (λ _. keys) (keys_at self.old y) else keys_at self.old y) }
    {
        self.rows[circuit.group.index()][circuit.number as usize] = keys;
    }
}
