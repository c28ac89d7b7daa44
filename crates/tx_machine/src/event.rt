// What may happen in the network.
use crate::open_call::Party;
use tx_plan::{Circuit, GroupId, Line};
use tx_text::Figures;

/// One action of an exchange, a subscriber, the end of a circuit, or one fault. An id in it may be
/// foreign to the plan, and a call number may be one that was never given: such an event is
/// refused.
#[derive(Clone, Copy)]
pub enum Event {
    /// A line calls, and its subscriber keys the figures.
    Key { line: Line, keyed: Figures },
    /// The exchange where the call of this number stands routes it.
    Route(u32),
    /// The circuit that the call of this number has seized is confirmed: call confirmation, proceed
    /// to select and selection (ITU-T U.1).
    Confirm(u32),
    /// A party clears the call of this number (ITU-T U.1, clearing).
    Clear { call: u32, party: Party },
    /// The release of a circuit is confirmed (ITU-T U.1, clear confirmation).
    Released(Circuit),
    /// A group fails, and the calls on it are lost.
    Fail(GroupId),
    /// A failed group works again.
    Restore(GroupId),
    /// A group is blocked: no call may seize a circuit of it any more. Calls on it go on.
    Block(GroupId),
    /// A blocked group may be seized again.
    Unblock(GroupId),
    /// A circuit is taken out of service: neither end may seize it. A call that has it goes on.
    CircuitOut(Circuit),
    /// A circuit is put back in service.
    CircuitIn(Circuit),
    /// A line is out of order: it may not call, and no further call is connected to it.
    LineFault(Line),
    /// A line out of order works again.
    LineMend(Line),
    /// A subscriber is absent: no further call is connected to the line. It may still call.
    LineAway(Line),
    /// An absent subscriber is back.
    LineBack(Line),
}
