//! The lines that a run prints: replies, and tickets of the calls that ended.
#![tactic(auto)]

mod reply;
mod ticket;

pub use reply::{cause_word, write_circuit, write_reply};
pub use ticket::write_ticket;
