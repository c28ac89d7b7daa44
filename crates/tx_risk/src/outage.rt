// What may fail.
use tx_plan::{ExchangeId, GroupId};

/// What fails alone.
#[derive(Clone, Copy, PartialEq, Eq)]
pub enum Outage {
    /// One group.
    Group(GroupId),
    /// An exchange, with all groups of which it is an end.
    Exchange(ExchangeId),
    /// The groups of the named risk at an index.
    Named(usize),
}
