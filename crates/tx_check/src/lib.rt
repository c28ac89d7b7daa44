//! The checker of certificates: whether ranks show that a plan is safe for a transit limit and a
//! spare number, and else why not. Its contract carries the headline.
#![tactic(auto)]

mod ambiguity;
mod checker;
mod fault;
mod law;
mod lists;
mod passes;
mod ranks;
mod verdict;
mod verdict_writer;

pub use checker::{check, confirm};
pub use fault::CheckFault;
pub use law::faultless_is_certified;
pub use verdict::Verdict;
pub use verdict_writer::write_verdict;
