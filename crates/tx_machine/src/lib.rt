//! The network of exchanges: its events, its replies, its state and the step, what is promised of
//! every run, and what both networks use.
#![tactic(auto)]

mod cause;
mod changing;
mod deciding;
mod driving;
mod event;
mod facts;
mod headline;
mod network;
mod open_call;
mod plain;
mod refusal;
mod refusals;
mod reply;
mod ticket;

pub use cause::{Cause, Service};
pub use changing::{common_ranks_certify, live_change_is_sound};
pub use deciding::{Decision, decide};
pub use driving::drive;
pub use event::Event;
pub use facts::{Facts, LineStatus};
pub use headline::{
    certified_is_sound, every_nc_is_excused, hops_join_and_carry_once, lines_take_part_once,
    ranks_fall, routes_are_bounded, spare_groups_suffice, tickets_are_appended,
};
pub use network::Network;
pub use open_call::{Hop, OpenCall, Party, Phase, exchange_of, far_of};
pub use plain::Plain;
pub use refusal::Refusal;
pub use refusals::refusal_of;
pub use reply::Reply;
pub use ticket::Ticket;
