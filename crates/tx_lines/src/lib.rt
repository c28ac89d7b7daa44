//! The states of subscribers' lines, by index: which lines are engaged, out of order or absent, and
//! what a line answers to a call.
#![tactic(auto)]

mod book;
mod ranges;

pub use book::{LineAnswer, LineBook, Status};
