// Who is cut off.
use crate::outage::Outage;
use std::alloc::{Allocator, Global};
use tx_plan::{CodeId, ExchangeId, GroupId};

/// A step of walks to a dead end: a group, where it leads, and the place of the next leg.
#[derive(Clone, Copy)]
pub struct Leg {
    pub group: GroupId,
    pub to: ExchangeId,
    pub next: u32,
}

/// Where calls for a code start that may not get through. A shortest walk from there to an exchange
/// where no group is left has so many steps, the first of them at this place among the legs, and
/// ends there. Stray, if a way home is left too.
#[derive(Clone, Copy)]
pub struct Cut {
    pub code: CodeId,
    pub start: ExchangeId,
    pub end: ExchangeId,
    pub first: u32,
    pub steps: u8,
    pub stray: bool,
}

/// What fails, and whom it cuts off: by codes, and then by where calls start. Walks that come to one
/// exchange go on by the same legs.
#[derive(Drop)]
pub struct Outcome<A: Allocator = Global> {
    pub outage: Outage,
    pub cuts: Vec<Cut, A>,
    pub legs: Vec<Leg, A>,
}
