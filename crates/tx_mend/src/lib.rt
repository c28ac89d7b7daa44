//! Mending a plan: routes over the groups of its network that are certified for a transit limit and
//! a spare number, wherever any are.
//!
//! `mend` gives a plan with the same exchanges, codes, ranges, groups and bars. A code whose
//! present routes can be certified keeps its lists. For any other code the least ranks of the
//! exchanges are found, which show whether any routes can be certified. They are raised as far as
//! needed so that the lists keep as many of their groups as can stay beside each other, and only
//! lists that are then too short get others. Where no routes can be certified, `mend` says which
//! exchanges cannot be served for which code, and why. `write_mending` writes the lists that
//! change, or what cannot be served.
#![tactic(auto)]

mod across;
mod basis;
mod cause;
mod causes;
mod code_lines;
mod code_ranks;
mod filling;
mod law;
mod mending;
mod nearest;
mod outgoing;
mod put_back;
mod report;
mod rerouting;
mod rounds;
mod rules;
mod serving;
mod settling;
mod task;
mod trial;
mod unserved;

pub use cause::{Cause, Missing, Unserved};
pub use law::{
    causes_are_true, certified_stays, keeps_what_can_be_kept, least_ranks_are_least,
    least_ranks_serve, mending_changes_least, mending_is_exact,
};
pub use mending::{Mending, mend};
pub use report::write_mending;
