// In what two plans are not of one network.
ghost use Rattle.std.specs.Prelude.{◌≡◌, ◌<◌, ◌↔◌, true};
ghost use Rattle.tx_plantext.specs.Difference.{SameAt, DifferenceAnswer};
ghost use Rattle.tx_plantext.specs.inner.Apart.{entries_in, ApartAnswer};

use crate::same_entries::{is_same_code, is_same_exchange, is_same_group, is_same_range};
use std::alloc::Allocator;
use tx_plan::{CodeId, ExchangeId, GroupId, Plan};

/// The lists that two plans of one network share.
#[derive(Clone, Copy, PartialEq, Eq)]
pub enum NetworkList {
    /// The exchanges.
    Exchanges,
    /// The codes, with their homes.
    Codes,
    /// The ranges.
    Ranges,
    /// The groups.
    Groups,
}

/// An entry in which two plans are not of one network.
#[derive(Clone, Copy, PartialEq, Eq)]
pub struct Difference {
    /// The list.
    pub list: NetworkList,
    /// The index of the entry, from 0.
    pub index: u16,
}

/// The first list in which two plans are not of one network, and its first entry that differs. None
/// where they have the same exchanges, codes with their homes, ranges and groups, in the same
/// order, so that they differ at most in routes and bars.
pub fn first_difference<A: Allocator>(old: &Plan<A>, new: &Plan<A>) -> Option<Difference>
    ensures { DifferenceAnswer old.now new.now result }
{
    let list = NetworkList::Exchanges;
    if let Some(index) = first_apart(list, old, new) {
        return Some(Difference { list, index });
    }
    let list = NetworkList::Codes;
    if let Some(index) = first_apart(list, old, new) {
        return Some(Difference { list, index });
    }
    let list = NetworkList::Ranges;
    if let Some(index) = first_apart(list, old, new) {
        return Some(Difference { list, index });
    }
    let list = NetworkList::Groups;
    if let Some(index) = first_apart(list, old, new) {
        return Some(Difference { list, index });
    }
    None
}

/// The first index at which a list differs.
fn first_apart<A: Allocator>(list: NetworkList, old: &Plan<A>, new: &Plan<A>) -> Option<u16>
    ensures { ApartAnswer list old.now new.now result }
{
    let before = entries(list, old);
    let after = entries(list, new);
    let shorter = before.min(after);
    for index in 0..shorter {
        if !is_same_at(list, old, new, index) {
            return Some(index);
        }
    }
    if before == after { None } else { Some(shorter) }
}

/// How many entries a list has.
fn entries<A: Allocator>(list: NetworkList, plan: &Plan<A>) -> u16
    ensures { result ≡ entries_in list plan.now }
{
    let count = match list {
        NetworkList::Exchanges => plan.exchanges(),
        NetworkList::Codes => plan.codes(),
        NetworkList::Ranges => plan.ranges(),
        NetworkList::Groups => plan.groups(),
    };
    count as u16
}

/// Whether a list has the same entry at an index.
fn is_same_at<A: Allocator>(list: NetworkList, old: &Plan<A>, new: &Plan<A>, index: u16) -> bool
    requires old { index < entries_in list old.now }
    requires new { index < entries_in list new.now }
    ensures { result ≡ true ↔ SameAt list old.now new.now index }
{
    let index = usize::from(index);
    match list {
        NetworkList::Exchanges => is_same_exchange(old, new, ExchangeId::of(index)),
        NetworkList::Codes => is_same_code(old, new, CodeId::of(index)),
        NetworkList::Ranges => is_same_range(old, new, index),
        NetworkList::Groups => is_same_group(old, new, GroupId::of(index)),
    }
}
