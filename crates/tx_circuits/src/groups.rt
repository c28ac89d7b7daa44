// All circuits of a plan in one vector, group by group.
ghost use Rattle.std.specs.Prelude.{◌≡◌, ◌≤◌, ◌<◌, ◌++◌, ◌∷◌, [], true, false, is_some, map, length, replicate, Some, None, slice_get, OnOk, OnErr, IfOk, IfSome, ◌+◌, ℕ, slice_set};
ghost use Rattle.std.specs.Option.{option_map, option_map_or};
ghost use Rattle.tx_circuits.specs.inner.Slots.{cleared_state, has_seized, IsSound, IsListed, free_at, link_at, opposite, state_of, until};
ghost use Rattle.tx_circuits.specs.inner.Groups.{state_at, end_at, change_at, with_state, with_failed, with_blocked, first_index, idle, IsAppended, seizing_end, group_slots, states_in, entry_numbered, OthersStay};
ghost use Rattle.tx_circuits.specs.inner.Seen.{holds};
ghost use Rattle.tx_circuits.specs.declared.lists.Way.{Way as WayValue};

use crate::lists::{End, FreeList, FreeLists, Links, insert, relink};
use crate::slot::{CircuitState, Slot};
use std::alloc::{Allocator, Global};
use std::marker::Model;
use tx_plan::{Circuit, Direction, ExchangeId, GroupId};
use tx_text::NoMemory;

/// A group's ends and direction, and its marks.
#[derive(Clone, Copy)]
pub struct GroupHead {
    pub a: ExchangeId,
    pub b: ExchangeId,
    pub direction: Direction,
    pub failed: bool,
    pub blocked: bool,
}

impl GroupHead {
    /// The end at which an exchange seizes, if it may.
    pub fn seizing_end(self, exchange: ExchangeId) -> Option<End>
        ensures { result ≡ seizing_end self exchange }
    {
        if self.a == exchange {
            return Some(End::First);
        }
        if self.direction == Direction::BothWay && self.b == exchange {
            return Some(End::Other);
        }
        None
    }
}

/// A group, where its slots begin in the vector of all, how many they are, and its free lists.
#[derive(Clone, Copy)]
pub struct Row {
    pub head: GroupHead,
    pub start: usize,
    pub count: usize,
    pub lists: FreeLists,
}

impl Row {
    /// The state of the circuit of a number, if there is such a one.
    pub fn state(&self, slots: &[Slot], number: u32) -> Option<CircuitState>
        requires { self.now.start + self.now.count ≤ length slots.now }
        ensures { result ≡ entry_numbered (states_in slots.now self.now) number }
    {
        let number = number as usize;
        if number == 0 || number > self.count {
            return None;
        }
        Some(slots[self.start + (number - 1)].state)
    }

    /// Gives a circuit another state.
    pub fn set_state(&mut self, slots: &mut [Slot], index: usize, to: CircuitState)
        requires within { self.old.start + self.old.count ≤ length slots.old }
        requires index { index < self.old.count }
        requires sound { IsSound (group_slots slots.old self.old) self.old.lists }
        ensures row { self.new ≡ record self.old { lists = self.new.lists } }
        ensures sound { IsSound (group_slots slots.new self.old) self.new.lists }
        ensures states { states_in slots.new self.old
            ≡ slice_set (states_in slots.old self.old) index to }
        ensures rest { OthersStay slots.old slots.new self.old }
    {
        let part = &mut slots[self.start..self.start + self.count];
        set_state(part, &mut self.lists, index, to);
    }

    /// Takes all calls off the circuits.
    pub fn clear(&mut self, slots: &mut [Slot])
        requires within { self.old.start + self.old.count ≤ length slots.old }
        requires short { self.old.count ≤ 240 }
        ensures row { self.new ≡ record self.old { lists = self.new.lists } }
        ensures sound { IsSound (group_slots slots.new self.old) self.new.lists }
        ensures states { states_in slots.new self.old
            ≡ map cleared_state (states_in slots.old self.old) }
        ensures rest { OthersStay slots.old slots.new self.old }
    {
        let part = &mut slots[self.start..self.start + self.count];
        self.lists = clear(part);
    }
}

// Gives a circuit a state. Walks a list only where the circuit comes back to it.
fn set_state(slots: &mut [Slot], lists: &mut FreeLists, index: usize, to: CircuitState)
    requires sound { IsSound slots.old lists.old }
    requires index { index < length slots.old }
    ensures sound { IsSound slots.new lists.new }
    ensures states { map state_of slots.new ≡ slice_set (map state_of slots.old) index to }
{
    relink(slots, &mut lists.first, End::First, index, to);
    relink(slots, &mut lists.other, End::Other, index, to);
    slots[index].state = to;
}

// Puts a circuit after all others on the list of an end, if it is free there.
fn append(slots: &mut [Slot], list: &mut FreeList, end: End, index: usize)
    requires short { length slots.old ≤ 240 }
    requires index { index < length slots.old }
    requires listed { IsListed (until index (free_at end slots.old)) end slots.old list.old }
    ensures listed { IsListed (until (index + 1) (free_at end slots.old)) end slots.new list.new }
    ensures other { (way : WayValue) (k : ℕ)
        → link_at (opposite end) way slots.new k ≡ link_at (opposite end) way slots.old k }
    ensures states { map state_of slots.new ≡ map state_of slots.old }
{
    if !slots[index].state.is_free(end) {
        return;
    }
    let links = Links {
        above: None,
        below: list.greatest,
    };
    insert(slots, list, end, index, links);
}

// Makes the lists anew, in one pass.
fn relist(slots: &mut [Slot]) -> FreeLists
    requires short { length slots.old ≤ 240 }
    ensures sound { IsSound slots.new result }
    ensures states { map state_of slots.new ≡ map state_of slots.old }
{
    let mut lists = FreeLists::new();
    for index in 0..slots.len() {
        append(slots, &mut lists.first, End::First, index);
        append(slots, &mut lists.other, End::Other, index);
    }
    lists
}

// Takes all calls off the circuits, and gives the lists.
fn clear(slots: &mut [Slot]) -> FreeLists
    requires short { length slots.old ≤ 240 }
    ensures sound { IsSound slots.new result }
    ensures states { map state_of slots.new ≡ map cleared_state (map state_of slots.old) }
{
    for slot in slots.iter_mut() {
        slot.state = slot.state.cleared();
    }
    relist(slots)
}

/// The groups of a plan with the states of their circuits: all circuits in one vector, group by
/// group, linked in free lists.
pub struct Groups<A: Allocator = Global> {
    slots: Vec<Slot, A>,
    rows: Vec<Row, A>,
}

impl<A: Allocator> Drop for Groups<A> {
    fn drop(self) {
        let Self { slots, rows } = self;
        drop(slots);
        drop(rows);
    }
}

impl<A: Allocator> Model for Groups<A> {
    ghost use Rattle.std.specs.Prelude.{List, map};
    ghost use Rattle.tx_circuits.specs.inner.Groups.{GroupState, group_state, AreKept};

    ghost Value = { List GroupState };

    ghost view = { λ g. map (group_state g.slots.items) g.rows.items };

    ghost invariant = { λ g. AreKept g.slots.items g.rows.items };
}

impl<A: Allocator + Copy> Groups<A> {
    /// No groups yet, with room for so many groups and circuits.
    pub fn with_room(alloc: A, groups: usize, circuits: usize) -> Result<Self, NoMemory>
        ensures { IfOk result (λ g. g ≡ []) }
    {
        let rows = Vec::with_capacity(alloc, groups)?;
        let slots = Vec::with_capacity(alloc, circuits)?;
        Ok(Groups { slots, rows })
    }
}

// Appends the slots of a group, all free and linked, and gives its row.
fn append_group<A: Allocator>(
    slots: &mut Vec<Slot, A>,
    head: GroupHead,
    count: usize,
) -> Result<Row, NoMemory>
    requires { count ≤ 240 }
    ensures ok { IfOk result (IsAppended slots.old.items slots.new.items head count) }
    ensures err { OnErr result (slots.new.items ≡ slots.old.items) }
{
    let start = slots.len();
    slots.reserve(count)?;
    for index in 0..count {
        slots.push_reserved(Slot::among(index, count));
    }
    let all = FreeList::of_all(count);
    Ok(Row {
        head,
        start,
        count,
        lists: FreeLists {
            first: all,
            other: all,
        },
    })
}

impl<A: Allocator> Groups<A> {
    /// Appends a group with so many circuits, all free.
    pub fn add(&mut self, head: GroupHead, count: usize) -> Result<(), NoMemory>
        requires { count ≤ 240 }
        ensures ok { OnOk result
            (self.new ≡ self.old ++ record { head = head; states = replicate count idle } ∷ []) }
        ensures err { OnErr result (self.new ≡ self.old) }
    {
        let row = append_group(&mut self.slots, head, count)?;
        self.rows.push(row)?;
        Ok(())
    }

    /// How many groups.
    pub fn len(&self) -> usize
        ensures { result ≡ length self.now }
    {
        self.rows.len()
    }

    /// A group beside its circuits, if there is such a one.
    pub fn head(&self, group: GroupId) -> Option<GroupHead>
        ensures { result ≡ option_map (λ t. t.head) (slice_get self.now group) }
    {
        match self.rows.get(group.index()) {
            Some(row) => Some(row.head),
            None => None,
        }
    }

    /// The state of a circuit, if there is such a one.
    pub fn state(&self, circuit: &Circuit) -> Option<CircuitState>
        ensures { result ≡ state_at self.now circuit.now }
    {
        match self.rows.get(circuit.group.index()) {
            Some(row) => row.state(self.slots.as_slice(), circuit.number),
            None => None,
        }
    }

    /// The end at which an exchange seizes circuits of a group, if it may.
    pub fn end(&self, group: GroupId, exchange: ExchangeId) -> Option<End>
        ensures { result ≡ end_at self.now group exchange }
    {
        match self.rows.get(group.index()) {
            Some(row) => row.head.seizing_end(exchange),
            None => None,
        }
    }

    /// The state of a circuit that there is.
    pub fn known_state(&self, circuit: &Circuit) -> CircuitState
        requires { is_some (state_at self.now circuit.now) ≡ true }
        ensures { state_at self.now circuit.now ≡ Some result }
    {
        self.state(circuit).unwrap()
    }

    /// The end at which an exchange seizes, where it may.
    pub fn known_end(&self, group: GroupId, exchange: ExchangeId) -> End
        requires { is_some (end_at self.now group exchange) ≡ true }
        ensures { end_at self.now group exchange ≡ Some result }
    {
        self.end(group, exchange).unwrap()
    }

    /// Whether an end has seized a circuit.
    pub fn has_seized(&self, circuit: &Circuit, end: End) -> bool
        ensures { result ≡ holds (has_seized end) self.now circuit.now }
    {
        match self.state(circuit) {
            Some(state) => state.has_seized(end),
            None => false,
        }
    }

    /// Whether an exchange has seized a circuit of a group that is in this state.
    pub fn seizes_in(&self, state: CircuitState, group: GroupId, exchange: ExchangeId) -> bool
        ensures { result ≡ option_map_or (λ end. has_seized end state)
            (end_at self.now group exchange) false }
    {
        match self.end(group, exchange) {
            Some(end) => state.has_seized(end),
            None => false,
        }
    }

    /// The index of the circuit that an end takes next, read from the head of its list.
    pub fn first_index(&self, group: GroupId, end: End) -> Option<u8>
        requires { group < length self.now }
        ensures { IfSome (slice_get self.now group) (λ t. result ≡ first_index t end) }
    {
        let lists = &self.rows[group.index()].lists;
        match end {
            End::First => lists.first.least,
            End::Other => lists.other.greatest,
        }
    }

    /// Gives a circuit another state.
    pub fn set_state(&mut self, circuit: &Circuit, to: CircuitState)
        requires { is_some (state_at self.old circuit.now) ≡ true }
        ensures { self.new ≡ change_at (with_state circuit.now to) circuit.now.group self.old }
    {
        let index = circuit.number as usize - 1;
        let row = &mut self.rows[circuit.group.index()];
        row.set_state(self.slots.as_mut_slice(), index, to);
    }

    /// Takes all calls off the circuits of a group.
    pub fn clear(&mut self, group: GroupId)
        requires { group < length self.old }
        ensures { self.new ≡ change_at
            (λ t. record t { states = map cleared_state t.states }) group self.old }
    {
        let row = &mut self.rows[group.index()];
        row.clear(self.slots.as_mut_slice());
    }

    pub fn set_failed(&mut self, group: GroupId, to: bool)
        requires { group < length self.old }
        ensures { self.new ≡ change_at (with_failed to) group self.old }
    {
        self.rows[group.index()].head.failed = to;
    }

    pub fn set_blocked(&mut self, group: GroupId, to: bool)
        requires { group < length self.old }
        ensures { self.new ≡ change_at (with_blocked to) group self.old }
    {
        self.rows[group.index()].head.blocked = to;
    }
}
