// What cannot be served, and why.
use tx_plan::{CodeId, ExchangeId};

/// Why an exchange cannot be served for a code.
#[derive(Clone, Copy, PartialEq, Eq)]
pub enum Cause {
    /// The limit is too small: this is the least rank that the exchange can have.
    Rank(u8),
    /// No limit is great enough: so many groups lead on to exchanges that can be served, and more
    /// than the spare number would have to.
    Groups(usize),
}

/// A code, an exchange where calls for it may start and that cannot be served, and why.
#[derive(Clone, Copy, PartialEq, Eq)]
pub struct Unserved {
    pub code: CodeId,
    pub exchange: ExchangeId,
    pub cause: Cause,
}

/// A code, an exchange from which some groups lead on but too few, and how many more it would need.
#[derive(Clone, Copy, PartialEq, Eq)]
pub struct Missing {
    pub code: CodeId,
    pub exchange: ExchangeId,
    pub groups: usize,
}
