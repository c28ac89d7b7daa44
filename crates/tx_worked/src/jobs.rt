// Plays plans, certificates and scripts through the jobs, and tries what must hold of each: in
// pieces of any size, wherever an end fails, and whichever request for memory is refused.

mod job;
mod listings;
mod stretches;
mod trials;

pub(crate) use job::{End, Whole, Work, done};
pub(crate) use listings::{count_calls, list_calls, list_prefixes, list_rooms};
pub(crate) use trials::{reads, try_ends, try_pieces, try_refusals, try_rooms};
