// Open calls: what is kept of a call, and where it is.
ghost use Rattle.std.specs.Prelude.{◌≡◌};
ghost use Rattle.tx_machine.specs.Call.{exchange_of};
ghost use Rattle.tx_machine.specs.Confirming.{far_of};
ghost use Rattle.tx_machine.specs.Seen.{call_seen};

use std::alloc::{Allocator, Global};
use tx_plan::{Circuit, ExchangeId, Line, Plan};
use tx_text::Figures;

/// A party of a call.
#[derive(Clone, Copy, PartialEq, Eq)]
pub enum Party {
    /// The subscriber who called.
    Caller,
    /// The subscriber who was called.
    Called,
}

/// What an open call waits for, by the phases of ITU-T U.1.
#[derive(Clone, Copy, PartialEq, Eq)]
pub enum Phase {
    /// It stands at an exchange and waits to be routed there.
    Standing,
    /// It has seized the circuit (call), and waits for call confirmation, proceed to select and
    /// selection.
    Calling(Circuit),
    /// It is connected to the line (call connected), and waits for clearing.
    Connected(Line),
}

/// A circuit that a call carries, and the exchange that it leads to.
#[derive(Clone, Copy, PartialEq, Eq)]
pub struct Hop {
    pub circuit: Circuit,
    pub far: ExchangeId,
}

/// An open call.
#[derive(Drop)]
pub struct OpenCall<A: Allocator = Global> {
    /// Its number, from 1.
    pub number: u32,
    /// The line that calls.
    pub line: Line,
    /// The figures that were keyed.
    pub keyed: Figures,
    /// Whether a head-on collision threw it back to the exchange where it stands.
    pub collided: bool,
    /// What it waits for.
    pub phase: Phase,
    /// The event by which the figures were keyed, by its number among the accepted events, from 1.
    pub keyed_at: u64,
    /// The hops so far.
    pub hops: Vec<Hop, A>,
}

/// Where the call stands.
pub fn exchange_of<A: Allocator>(plan: &Plan<A>, call: &OpenCall<A>) -> ExchangeId
    ensures { result ≡ exchange_of plan.now (call_seen call.now) }
{
    match call.hops.last() {
        Some(hop) => hop.far,
        None => plan.home(call.line.code),
    }
}

/// The exchange that the circuit leads to from where the call stands.
pub fn far_of<A: Allocator>(plan: &Plan<A>, call: &OpenCall<A>, circuit: &Circuit) -> ExchangeId
    ensures { result ≡ far_of plan.now (call_seen call.now) circuit.now }
{
    match plan.other_end(circuit.group, exchange_of(plan, call)) {
        Some(far) => far,
        None => ExchangeId::of(0),
    }
}
