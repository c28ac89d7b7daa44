//! The indexed network: the engine that runs play on.
//!
//! An `Engine` keeps the open calls under keys, by number and by circuit, and the states of lines
//! and circuits by index. It replies as the definitions of tx_machine do, event by event, as every
//! `Network`.
//!
//! ```
//! /// The reply where the first group of a plan fails before any call: that none was lost.
//! fn fail_first_group(alloc: Global, plan: &Plan) -> Result<Reply, NoMemory> {
//!     let mut network = Engine::new(alloc, plan)?;
//!     network.apply(Event::Fail(GroupId::of(0)))
//! }
//! ```
#![tactic(auto)]

mod circuit_keys;
mod ending;
mod engine;
mod failing;
mod head_on;
mod open_calls;
mod setting_up;

pub use engine::Engine;
