// What the network replies.
use crate::cause::Service;
use crate::refusal::Refusal;
use tx_plan::{Circuit, ExchangeId, Line};

/// The reply to an event.
#[derive(Clone, Copy, PartialEq, Eq)]
pub enum Reply {
    /// A new call, with its number, from 1.
    Keyed(u32),
    /// The call has seized the circuit.
    Seized(Circuit),
    /// The call went on over its circuit, to this exchange.
    At(ExchangeId),
    /// The call is connected to the line.
    Connected(Line),
    /// The call ended with a service code.
    Answered(Service),
    /// Two calls had seized the circuit from its two ends: `a`, that of the event, and `b`. Each
    /// stands again at its exchange, or ends with NC.
    HeadOn {
        a: u32,
        b: u32,
        a_stands: bool,
        b_stands: bool,
    },
    /// The call was cleared.
    Cleared,
    /// The one change was made.
    Done,
    /// The group failed, and so many calls were lost.
    Lost(u64),
    /// The event was refused, and nothing changed.
    Refused(Refusal),
}
