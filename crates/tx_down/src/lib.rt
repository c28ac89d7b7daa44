//! A plan without some groups of its network: as its text would say it without the lines of these
//! groups, and without them in the lists.
#![tactic(auto)]

mod network;
mod without;

pub use without::plan_without;
