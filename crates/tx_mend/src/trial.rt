// A group that is tried in a list.
ghost use Rattle.std.specs.Prelude.{◌≡◌, ◌<◌, ◌||◌, ◌&&◌, ◌==◌, not, ℕ, Option, map, length};
ghost use Rattle.std.specs.List.{list_all};
ghost use Rattle.tx_plan.specs.Routes.{route_list};
ghost use Rattle.tx_mend.specs.LeastRanks.{indexes, outgoing, leads_on};
ghost use Rattle.tx_mend.specs.KeptRanks.{stays_by, list_with, can_follow_keeping};
ghost use Rattle.tx_mend.specs.inner.CodeRanks.{rank_list, ranked};
ghost use Rattle.tx_mend.specs.inner.Local.{IsLocal};

use crate::across::{leads_on, stays};
use crate::outgoing::Outgoing;
use crate::rules::{Rule, can_follow};
use std::alloc::Allocator;
use tx_plan::{CodeId, ExchangeId, GroupId, Plan};

/// A group that is tried in the list of an exchange for a code, beside all that stay by these
/// ranks. By routes that keep them, an exchange follows that may seize more than `spare` groups
/// that lead to ranked exchanges, if those that it keeps do so too.
#[derive(Drop)]
pub struct Trial<'a, A: Allocator> {
    pub plan: &'a Plan<A>,
    pub seizable: &'a [Outgoing<A>],
    pub code: CodeId,
    pub spare: u8,
    pub ranks: &'a [Option<u8>],
    pub exchange: ExchangeId,
    pub group: GroupId,
    ghost right: { seizable.now ≡ map (outgoing plan.now) (indexes (length plan.now.exchanges)) },
    ghost long: { length ranks.now ≡ length plan.now.exchanges },
    ghost local: { IsLocal (length plan.now.exchanges) (can_follow_keeping plan.now spare
        (list_with plan.now code (ranked ranks.now) exchange group)) },
}

impl<'a, A: Allocator> Trial<'a, A> {
    /// Whether it is the group that is tried.
    fn is_tried(&self, exchange: ExchangeId, group: GroupId) -> bool
        ensures { result ≡ ((exchange == self.now.exchange) && (group == self.now.group)) }
    {
        exchange == self.exchange && group == self.group
    }

    /// Whether a group stays in the list of an exchange.
    fn keeps(&self, exchange: ExchangeId, group: GroupId) -> bool
        requires { exchange < length self.now.plan.now.exchanges }
        ensures { result ≡ (stays_by self.now.plan.now (ranked self.now.ranks.now) exchange group
            || ((exchange == self.now.exchange) && (group == self.now.group))) }
    {
        stays(self.plan, self.ranks, exchange, group) || self.is_tried(exchange, group)
    }

    /// Whether a group leads to a ranked exchange, if it stays.
    fn is_on(&self, ranks: &[Option<u8>], exchange: ExchangeId, group: GroupId) -> bool
        requires long { length ranks.now ≡ length self.now.plan.now.exchanges }
        requires exchange { exchange < length self.now.plan.now.exchanges }
        ensures { (of : ℕ → Option ℕ) → ranks.now ≡ rank_list self.now.plan.now of → result
            ≡ (not (stays_by self.now.plan.now (ranked self.now.ranks.now) exchange group
            || ((exchange == self.now.exchange) && (group == self.now.group)))
            || leads_on self.now.plan.now of exchange group) }
    {
        if self.keeps(exchange, group) {
            return leads_on(self.plan, ranks, exchange, group);
        }
        true
    }

    /// Whether all groups that stay in the list of an exchange lead to ranked exchanges.
    fn all_on(&self, ranks: &[Option<u8>], exchange: ExchangeId) -> bool
        requires long { length ranks.now ≡ length self.now.plan.now.exchanges }
        requires exchange { exchange < length self.now.plan.now.exchanges }
        ensures { (of : ℕ → Option ℕ) → ranks.now ≡ rank_list self.now.plan.now of → result
            ≡ list_all (λ g. not (stays_by self.now.plan.now (ranked self.now.ranks.now) exchange g
            || ((exchange == self.now.exchange) && (g == self.now.group)))
            || leads_on self.now.plan.now of exchange g)
            (route_list self.now.plan.now exchange self.now.code) }
    {
        let list = self.plan.list(exchange, self.code);
        for group in list {
            if !self.is_on(ranks, exchange, *group) {
                return false;
            }
        }
        true
    }
}

impl<'a, A: Allocator> Rule for Trial<'a, A> {
    ghost exchanges = { λ t. length t.plan.now.exchanges };

    ghost follows = { λ t. can_follow_keeping t.plan.now t.spare
        (list_with t.plan.now t.code (ranked t.ranks.now) t.exchange t.group) };

    fn exchanges(&self) -> usize {
        self.plan.exchanges()
    }

    fn follows(&self, ranks: &[Option<u8>], exchange: ExchangeId) -> bool {
        self.all_on(ranks, exchange)
            && can_follow(self.plan, self.seizable, self.spare, ranks, exchange)
    }

    ghost local = { λ t. t.local };
}
