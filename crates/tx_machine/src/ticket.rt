// The tickets of calls that ended.
use crate::cause::Cause;
use crate::open_call::Hop;
use std::alloc::{Allocator, Global};
use std::marker::Model;
use tx_plan::{ExchangeId, Line};
use tx_text::Figures;

/// What is kept of a call that ended.
#[derive(Drop)]
pub struct Ticket<A: Allocator = Global> {
    /// The call's number, from 1.
    pub number: u32,
    /// The line that called.
    pub line: Line,
    /// The exchange where the call started.
    pub start: ExchangeId,
    /// The figures that were keyed.
    pub keyed: Figures,
    /// Why the call ended.
    pub cause: Cause,
    /// The event by which the line called, by its number among the accepted events, from 1.
    pub keyed_at: u64,
    /// The event by which the call ended, by its number likewise.
    pub ended_at: u64,
    /// The circuits that the call carried, and where they led.
    pub path: Vec<Hop, A>,
}

impl<A: Allocator> Model for Ticket<A> {
    ghost use Rattle.tx_machine.specs.Ended.{Ended};

    ghost Value = { Ended };

    ghost view = { λ t. record {
      number = t.number;
      line = t.line;
      start = t.start;
      keyed = t.keyed;
      cause = t.cause;
      keyed_at = t.keyed_at;
      ended_at = t.ended_at;
      path = t.path.items;
    } };
}
