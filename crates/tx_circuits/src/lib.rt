//! The states of all circuits of a plan: which are seized, carried, releasing or out of service,
//! with the circuits that an end may seize in free lists.
#![tactic(auto)]

mod groups;
mod lists;
mod slot;
mod table;

pub use table::CircuitTable;
