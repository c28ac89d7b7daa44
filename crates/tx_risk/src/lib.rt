//! Groups that fail at once, for example by the failure of a cable or an exchange: who is cut off
//! then, and what is promised of all others.
//!
//! A text names such risks. Its reader takes it exactly where it keeps to the format, and else
//! reports its first fault with its line.
#![tactic(auto)]

mod cut;
mod cutting;
mod declaring;
mod fault;
mod hits;
mod law;
mod left;
mod nearest;
mod orders;
mod outage;
mod outages;
mod risk_reader;
mod risks;
mod side;
mod surviving;

pub use cut::{Cut, Leg, Outcome};
pub use fault::{RiskFault, RiskWord, code_and_name};
pub use law::{
    clear_calls_get_through, cut_is_short, dead_ends_cut, failed_cuts_no_other,
    keyed_since_get_through, none_on_failed, ranked_is_uncut, uncut_is_closed, uncut_is_served,
};
pub use outage::Outage;
pub use outages::{all_outcomes, goes_with, outages_of};
pub use risk_reader::{read_risks, read_risks_from};
pub use risks::Risks;
pub use side::{Side, has_worse, is_other};
pub use surviving::{Survival, survive};
