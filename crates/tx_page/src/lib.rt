//! A page about a plan: one HTML file without script, which fetches nothing.
#![tactic(auto, using(tx_page_change::proofs::Texts::showing))]

mod codes;
mod decision;
mod findings;
mod heading;
mod network;
mod outages;
mod page;
mod style;
mod subject;
mod walks;

pub use page::{is_safe, write_page};
pub use subject::Subject;
