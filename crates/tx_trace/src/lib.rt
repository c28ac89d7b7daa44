//! How calls for a code go from an exchange, also while some groups are down: the way while all
//! else is free, the exchanges that they may come to, with their lists, and how far these are from
//! the home; which calls can pass an exchange or a group; and which go another way than in an old
//! plan.
#![tactic(auto)]

mod first_way;
mod law;
mod left;
mod meeting;
mod ranks;
mod routes_from;
mod through;
mod through_text;
mod trace_text;
mod tracing;
mod way_changes;
mod way_changes_text;

pub use law::{
    blocked_replies_as_left, heights_are_ranks, met_are_reached, only_call_goes_first_way,
    through_are_walks,
};
pub use left::plan_left;
pub use through::{Through, calls_through};
pub use through_text::write_through;
pub use trace_text::{write_down, write_head, write_trace};
pub use tracing::{Trace, trace_calls};
pub use way_changes::{WayChange, Ways, change_of_calls, changes_of_ways};
pub use way_changes_text::write_way_changes;
