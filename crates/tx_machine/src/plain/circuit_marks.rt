// A mark for each circuit.
ghost use Rattle.std.specs.Prelude.{◌≡◌, ◌<◌, ◌≤◌, ◌+◌, ◌*◌, ◌^◌, IfOk, not, ◌==◌, length, slice_set};
ghost use Rattle.std.specs.FinSet as set;
ghost use Rattle.tx_machine.specs.inner.Marks.{HasMark, IsCleared, index_of};

use std::alloc::{Allocator, Global};
use std::marker::Model;
use tx_plan::{Circuit, GroupId};
use tx_text::NoMemory;

/// Circuits that are marked, among those of so many groups of at most 240 circuits each.
#[derive(Drop)]
pub(crate) struct CircuitMarks<A: Allocator = Global> {
    bits: Vec<bool, A>,
    groups: usize,
}

impl<A: Allocator> Model for CircuitMarks<A> {
    ghost use Rattle.std.specs.Prelude.{◌≡◌, ◌*◌, length};
    ghost use Rattle.tx_machine.specs.inner.Marks.{Circuits, circuits_of, circuits_code};

    ghost Value = { Circuits };

    ghost coded = { circuits_code };

    ghost view = { λ m. record { marked = circuits_of m.bits.items; groups = m.groups } };

    ghost invariant = { λ m. length m.bits.items ≡ 240 * m.groups };
}

impl<A: Allocator> CircuitMarks<A> {
    /// No mark, among so many groups.
    #[tactic(auto, using(crate::proofs::Bits::no_circuits))]
    pub(crate) fn new(alloc: A, groups: usize) -> Result<CircuitMarks<A>, NoMemory>
        requires { groups ≤ 2 ^ 16 }
        ensures { IfOk result (λ m. m ≡ record { marked = set.empty; groups = groups }) }
    {
        let bits = Vec::from_elem(alloc, false, 240 * groups)?;
        Ok(CircuitMarks { bits, groups })
    }

    /// Whether the circuit is marked.
    pub(crate) fn has(&self, circuit: &Circuit) -> bool
        ensures { result ≡ set.contains self.now.marked circuit.now }
    {
        let number = circuit.number;
        let group = circuit.group.index();
        if group < self.groups && 1 <= number && number <= 240 {
            self.bits[240 * group + (number as usize - 1)]
        } else {
            false
        }
    }

    /// Marks the circuit.
    pub(crate) fn set(&mut self, circuit: &Circuit)
        requires { HasMark self.old.groups circuit.now }
        ensures { self.new ≡ record self.old { marked = set.insert self.old.marked circuit.now } }
    {
        put_at(self.bits.as_mut_slice(), circuit, true);
    }

    /// Takes the circuit's mark away.
    pub(crate) fn clear(&mut self, circuit: &Circuit)
        requires { HasMark self.old.groups circuit.now }
        ensures { self.new ≡ record self.old { marked = set.remove self.old.marked circuit.now } }
    {
        put_at(self.bits.as_mut_slice(), circuit, false);
    }

    /// Takes the marks of a group away.
    pub(crate) fn clear_group(&mut self, group: GroupId)
        requires { group < self.old.groups }
        ensures { self.new ≡ record self.old
            { marked = set.retain self.old.marked (λ x. not (x.group == group)) } }
    {
        clear_from(self.bits.as_mut_slice(), group.index());
    }
}

/// Sets or clears the bit of a circuit.
fn put_at(bits: &mut [bool], circuit: &Circuit, mark: bool)
    requires within { 240 * circuit.now.group + 240 ≤ length bits.old }
    requires first { 1 ≤ circuit.now.number }
    requires last { circuit.now.number ≤ 240 }
    ensures { bits.new ≡ slice_set bits.old (index_of circuit.now) mark }
{
    bits[240 * circuit.group.index() + (circuit.number as usize - 1)] = mark;
}

/// Clears the bits of a group.
fn clear_from(bits: &mut [bool], group: usize)
    requires { 240 * group + 240 ≤ length bits.old }
    ensures { IsCleared group 240 bits.old bits.new }
{
    let first = 240 * group;
    let mut n = 0;
    while n < 240 {
        bits[first + n] = false;
        n += 1;
    }
}
