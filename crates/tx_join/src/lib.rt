//! Two plans of any networks as two plans of one: the joined network has the exchanges, codes and
//! groups of both, known by their names. And what is done before and after lists and bars of both
//! are switched.
#![tactic(auto)]

mod contradiction;
mod differences;
mod entries;
mod joining;
mod law;
mod list_counts;
mod lists_alone;
mod naming;
mod network;
mod over;
mod refusal;
mod refusing;
mod steps;

pub use contradiction::{Contradiction, Kind, homes_of};
pub use differences::{differ, is_told};
pub use entries::{Entries, count_of_entries, is_known};
pub use joining::{Joined, join};
pub use list_counts::write_list_counts;
pub use naming::has_both;
pub use refusal::JoinRefusal;
pub use steps::{write_after, write_before};
