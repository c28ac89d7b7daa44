// How the ranking reads the routes of one code.
ghost use Rattle.std.specs.Prelude.{◌≡◌, ◌<◌, Some};
ghost use Rattle.tx_plan.specs.Among.{Among};
ghost use Rattle.tx_rank.specs.Walks.{Net};
ghost use Rattle.tx_rank.specs.Nets.{IsNet};

use tx_plan::{ExchangeId, GroupId};

/// The network as calls for one code see it.
pub trait CodeNet {
    ghost net: { Self → Net };

    /// How many exchanges there are.
    fn exchanges(&self) -> usize
        ensures { result ≡ (net self.now).exchanges };

    /// The exchange at an index.
    fn exchange(&self, index: usize) -> ExchangeId
        requires { index < (net self.now).exchanges }
        ensures { result ≡ index };

    /// The home of the code.
    fn home(&self) -> ExchangeId
        ensures { result ≡ (net self.now).home };

    /// Whether calls for the code may start here.
    fn is_origin(&self, exchange: ExchangeId) -> bool
        requires { exchange < (net self.now).exchanges }
        ensures { result ≡ (net self.now).is_origin exchange };

    /// The groups that an exchange may try, in order.
    fn list(&self, exchange: ExchangeId) -> &[GroupId]
        ensures { result.now ≡ (net self.now).list exchange };

    /// How many of them it tries at the least.
    fn fewest(&self, exchange: ExchangeId) -> usize
        ensures { result ≡ (net self.now).fewest exchange };

    /// Where a group in the list of an exchange leads.
    fn far(&self, group: GroupId, exchange: ExchangeId) -> ExchangeId
        requires { Among group ((net self.now).list exchange) }
        ensures { (net self.now).far group exchange ≡ Some result };

    // It obeys the rules of a plan.
    ghost is_net: { (routes : Self) → IsNet (net routes) };
}
