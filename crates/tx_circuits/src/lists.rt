// The free lists of a group: its ends, the ways through a list, the links of a circuit, and the
// heads.
ghost use Rattle.std.specs.Prelude.{◌≡◌, ◌<◌, None, ◌≢◌, ◌≤◌, ℕ, Option, Some, true, false, map, length, IfSome};
ghost use Rattle.tx_circuits.specs.declared.lists.End.{End as EndValue};
ghost use Rattle.tx_circuits.specs.declared.lists.Way.{Way as WayValue};
ghost use Rattle.tx_circuits.specs.inner.Slots.{ahead, back, begins, least_from, greatest_before, links_among, list_of_all, list_of, rank_of, free_at, link_at, chain, is_free, state_of, opposite, IsListed, AreNeighbours};
ghost use Rattle.tx_circuits.specs.inner.Linked.{IsLast, with};

use crate::slot::{CircuitState, Slot};

/// An end of a group.
#[derive(Clone, Copy)]
pub enum End {
    /// The exchange that the plan names first.
    First,
    /// The other exchange.
    Other,
}

/// A way through a free list: to greater numbers, or to smaller ones.
#[derive(Clone, Copy)]
pub enum Way {
    Up,
    Down,
}

impl Way {
    /// Where an index comes in this way.
    pub fn rank(self, index: usize) -> usize
        requires { index < 256 }
        ensures { result ≡ rank_of self index }
    {
        match self {
            Way::Up => index,
            Way::Down => 255 - index,
        }
    }
}

// The least index from this one on, of so many.
fn least_from(index: usize, count: usize) -> Option<u8>
    requires { count ≤ 240 }
    ensures { result ≡ least_from index count }
{
    if index < count {
        Some(index as u8)
    } else {
        None
    }
}

// The greatest index before this one.
fn greatest_before(index: usize) -> Option<u8>
    requires { index ≤ 240 }
    ensures { result ≡ greatest_before index }
{
    if index == 0 {
        None
    } else {
        Some((index - 1) as u8)
    }
}

/// The circuits beside one in a free list, by their indexes in the group.
#[derive(Clone, Copy)]
pub struct Links {
    pub above: Option<u8>,
    pub below: Option<u8>,
}

impl Links {
    /// The links at an index of so many circuits that are all free.
    pub fn among(index: usize, count: usize) -> Links
        requires index { index < count }
        requires short { count ≤ 240 }
        ensures { result ≡ links_among count index }
    {
        Links {
            above: least_from(index + 1, count),
            below: greatest_before(index),
        }
    }

    /// The neighbour in a way.
    pub fn ahead(self, way: Way) -> Option<u8>
        ensures { result ≡ ahead way self }
    {
        match way {
            Way::Up => self.above,
            Way::Down => self.below,
        }
    }

    /// The links with another neighbour in a way.
    pub fn with(self, way: Way, to: Option<u8>) -> Links
        ensures here { ahead way result ≡ to }
        ensures turned { ahead (back way) result ≡ ahead (back way) self }
    {
        match way {
            Way::Up => Links { above: to, ..self },
            Way::Down => Links { below: to, ..self },
        }
    }
}

/// The first and the last index of the circuits that are free at an end.
#[derive(Clone, Copy)]
pub struct FreeList {
    pub least: Option<u8>,
    pub greatest: Option<u8>,
}

impl FreeList {
    /// The list of so many circuits that are all free.
    pub fn of_all(count: usize) -> FreeList
        requires { count ≤ 240 }
        ensures { result ≡ list_of_all count }
    {
        FreeList {
            least: least_from(0, count),
            greatest: greatest_before(count),
        }
    }

    /// Where the list begins in a way.
    pub fn begins(&self, way: Way) -> Option<u8>
        ensures { result ≡ begins way self.now }
    {
        match way {
            Way::Up => self.least,
            Way::Down => self.greatest,
        }
    }
}

/// The free lists of a group, one for each end.
#[derive(Clone, Copy)]
pub struct FreeLists {
    pub first: FreeList,
    pub other: FreeList,
}

impl FreeLists {
    /// Two empty lists.
    pub fn new() -> FreeLists
        ensures { (end : EndValue) (way : WayValue) → begins way (list_of end result) ≡ None }
    {
        let empty = FreeList {
            least: None,
            greatest: None,
        };
        FreeLists {
            first: empty,
            other: empty,
        }
    }
}

// The links of a circuit in the list of an end.
fn links_at(slots: &[Slot], end: End, index: usize) -> Links
    requires { index < length slots.now }
    ensures { (way : WayValue) → ahead way result ≡ link_at end way slots.now index }
{
    slots[index].links(end)
}

// What follows an index in the list of an end, or begins the list.
fn follow(slots: &[Slot], list: &FreeList, end: End, way: Way, from: Option<u8>) -> Option<u8>
    requires { IfSome from (λ k. k < length slots.now) }
    ensures { result ≡ chain end way slots.now list.now from }
{
    match from {
        None => list.begins(way),
        Some(index) => {
            let links = links_at(slots, end, index as usize);
            links.ahead(way)
        }
    }
}

fn set_link(slots: &mut [Slot], end: End, way: Way, index: usize, to: Option<u8>)
    requires { index < length slots.old }
    ensures here { link_at end way slots.new index ≡ to }
    ensures apart { (k : ℕ) → k ≢ index
        → link_at end way slots.new k ≡ link_at end way slots.old k }
    ensures turned { (k : ℕ) → link_at end (back way) slots.new k
        ≡ link_at end (back way) slots.old k }
    ensures other { (w : WayValue) (k : ℕ)
        → link_at (opposite end) w slots.new k ≡ link_at (opposite end) w slots.old k }
    ensures states { map state_of slots.new ≡ map state_of slots.old }
{
    slots[index] = slots[index].with_link(end, way, to);
}

// After `from`, or at the list's begin, now comes `to`.
fn lead(
    slots: &mut [Slot],
    list: &mut FreeList,
    end: End,
    way: Way,
    from: Option<u8>,
    to: Option<u8>,
)
    requires { IfSome from (λ k. k < length slots.old) }
    ensures here { chain end way slots.new list.new from ≡ to }
    ensures apart { (q : Option ℕ) → q ≢ from
        → chain end way slots.new list.new q ≡ chain end way slots.old list.old q }
    ensures turned { (q : Option ℕ)
        → chain end (back way) slots.new list.new q ≡ chain end (back way) slots.old list.old q }
    ensures other { (w : WayValue) (k : ℕ)
        → link_at (opposite end) w slots.new k ≡ link_at (opposite end) w slots.old k }
    ensures states { map state_of slots.new ≡ map state_of slots.old }
{
    match (from, way) {
        (Some(index), _) => set_link(slots, end, way, index as usize, to),
        (None, Way::Up) => list.least = to,
        (None, Way::Down) => list.greatest = to,
    }
}

// The last free circuit that comes before the index in a way.
fn last_before(slots: &[Slot], list: &FreeList, end: End, way: Way, index: usize) -> Option<u8>
    requires short { length slots.now ≤ 240 }
    requires listed { IsListed (free_at end slots.now) end slots.now list.now }
    requires index { index < length slots.now }
    ensures { IsLast (free_at end slots.now) (rank_of way) (rank_of way index) result }
{
    let limit = way.rank(index);
    let mut last = None;
    let mut rest = list.begins(way);
    while let Some(p) = rest {
        if way.rank(p as usize) >= limit {
            break;
        }
        last = Some(p);
        rest = links_at(slots, end, p as usize).ahead(way);
    }
    last
}

// The neighbours that a circuit would have in the list of an end: looked for from the end of the
// list that is nearer.
fn neighbours(slots: &[Slot], list: &FreeList, end: End, index: usize) -> Links
    requires short { length slots.now ≤ 240 }
    requires listed { IsListed (free_at end slots.now) end slots.now list.now }
    requires index { index < length slots.now }
    requires taken { free_at end slots.now index ≡ false }
    ensures { AreNeighbours (free_at end slots.now) index result }
{
    if index < slots.len() / 2 {
        let below = last_before(slots, list, end, Way::Up, index);
        Links {
            above: follow(slots, list, end, Way::Up, below),
            below,
        }
    } else {
        let above = last_before(slots, list, end, Way::Down, index);
        Links {
            above,
            below: follow(slots, list, end, Way::Down, above),
        }
    }
}

// The circuit has other links in the list of an end.
fn set_links(slots: &mut [Slot], end: End, index: usize, links: Links)
    requires { index < length slots.old }
    ensures here { (way : WayValue) → link_at end way slots.new index ≡ ahead way links }
    ensures apart { (way : WayValue) (k : ℕ) → k ≢ index
        → link_at end way slots.new k ≡ link_at end way slots.old k }
    ensures other { (way : WayValue) (k : ℕ)
        → link_at (opposite end) way slots.new k ≡ link_at (opposite end) way slots.old k }
    ensures states { map state_of slots.new ≡ map state_of slots.old }
{
    slots[index] = slots[index].with_links(end, links);
}

/// The circuit is now between two neighbours; all other links are as before.
pub fn insert(slots: &mut [Slot], list: &mut FreeList, end: End, index: usize, links: Links)
    requires short { length slots.old ≤ 240 }
    requires index { index < length slots.old }
    requires above { IfSome links.above (λ k. k < length slots.old) }
    requires below { IfSome links.below (λ k. k < length slots.old) }
    requires apart { (way : WayValue) → Some index ≢ ahead way links }
    ensures placed { (way : WayValue)
        → chain end way slots.new list.new (Some index) ≡ ahead way links }
    ensures joined { (way : WayValue)
        → chain end way slots.new list.new (ahead (back way) links) ≡ Some index }
    ensures rest { (way : WayValue) (q : Option ℕ) → q ≢ Some index → q ≢ ahead (back way) links
        → chain end way slots.new list.new q ≡ chain end way slots.old list.old q }
    ensures other { (way : WayValue) (k : ℕ)
        → link_at (opposite end) way slots.new k ≡ link_at (opposite end) way slots.old k }
    ensures states { map state_of slots.new ≡ map state_of slots.old }
{
    let Links { above, below } = links;
    let here = Some(index as u8);
    set_links(slots, end, index, links);
    lead(slots, list, end, Way::Up, below, here);
    lead(slots, list, end, Way::Down, above, here);
}

// Puts a circuit on the list of an end. Walks the list.
fn put(slots: &mut [Slot], list: &mut FreeList, end: End, index: usize)
    requires short { length slots.old ≤ 240 }
    requires listed { IsListed (free_at end slots.old) end slots.old list.old }
    requires index { index < length slots.old }
    requires taken { free_at end slots.old index ≡ false }
    ensures listed { IsListed (with (free_at end slots.old) index true) end slots.new list.new }
    ensures other { (way : WayValue) (k : ℕ)
        → link_at (opposite end) way slots.new k ≡ link_at (opposite end) way slots.old k }
    ensures states { map state_of slots.new ≡ map state_of slots.old }
{
    let links = neighbours(slots, list, end, index);
    insert(slots, list, end, index, links);
}

// Takes a circuit off the list of an end.
fn take(slots: &mut [Slot], list: &mut FreeList, end: End, index: usize)
    requires short { length slots.old ≤ 240 }
    requires listed { IsListed (free_at end slots.old) end slots.old list.old }
    requires index { index < length slots.old }
    requires free { free_at end slots.old index ≡ true }
    ensures listed { IsListed (with (free_at end slots.old) index false) end slots.new list.new }
    ensures other { (way : WayValue) (k : ℕ)
        → link_at (opposite end) way slots.new k ≡ link_at (opposite end) way slots.old k }
    ensures states { map state_of slots.new ≡ map state_of slots.old }
{
    let links = links_at(slots, end, index);
    lead(slots, list, end, Way::Up, links.below, links.above);
    lead(slots, list, end, Way::Down, links.above, links.below);
}

/// Puts a circuit on the list of an end, takes it off, or leaves the list, as its new state asks.
pub fn relink(slots: &mut [Slot], list: &mut FreeList, end: End, index: usize, to: CircuitState)
    requires short { length slots.old ≤ 240 }
    requires listed { IsListed (free_at end slots.old) end slots.old list.old }
    requires index { index < length slots.old }
    ensures listed { IsListed (with (free_at end slots.old) index (is_free end to))
        end slots.new list.new }
    ensures other { (way : WayValue) (k : ℕ)
        → link_at (opposite end) way slots.new k ≡ link_at (opposite end) way slots.old k }
    ensures states { map state_of slots.new ≡ map state_of slots.old }
{
    let was = slots[index].state.is_free(end);
    let will = to.is_free(end);
    if was == will {
        return;
    }
    if will {
        put(slots, list, end, index);
    } else {
        take(slots, list, end, index);
    }
}
