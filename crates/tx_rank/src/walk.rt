// Walks through the network.
ghost use Rattle.std.specs.Prelude.{◌≡◌};
ghost use Rattle.tx_rank.specs.Walks.{end_of};

use std::alloc::{Allocator, Global};
use std::marker::Model;
use tx_plan::{ExchangeId, GroupId};

/// A walk: where it starts, and its steps.
#[derive(Drop)]
pub struct Walk<A: Allocator = Global> {
    pub start: ExchangeId,
    pub steps: Vec<(GroupId, ExchangeId), A>,
}

impl<A: Allocator> Model for Walk<A> {
    ghost use Rattle.tx_rank.specs.Walks.{Walk};

    ghost Value = { Walk };

    ghost view = { λ w. record { start = w.start; steps = w.steps.items } };
}

impl<A: Allocator> Walk<A> {
    /// The exchange where it ends.
    pub fn end(&self) -> ExchangeId
        ensures { result ≡ end_of self.now.start self.now.steps }
    {
        end(self.start, &self.steps)
    }
}

/// The exchange where these steps end.
pub(crate) fn end(start: ExchangeId, steps: &[(GroupId, ExchangeId)]) -> ExchangeId
    ensures { result ≡ end_of start steps.now }
{
    match steps.last() {
        Some(step) => step.1,
        None => start,
    }
}
