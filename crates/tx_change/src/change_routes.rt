// The routes of one code while a plan is changed.
ghost use Rattle.tx_rank.specs.Judged.{AreOrigins};
ghost use Rattle.tx_rank.specs.Nets.{IsNet};
ghost use Rattle.tx_rank.specs.inner.NetLaws.{IsNet-prop};
ghost use Rattle.tx_change.specs.inner.Joined.{joined_net};

use crate::joined::JoinedLists;
use std::alloc::Allocator;
use tx_plan::{CodeId, ExchangeId, GroupId, Plan};
use tx_rank::CodeNet;

/// The routes of one code of two plans of one network, by the joined lists of each exchange.
#[derive(Drop)]
pub struct ChangeRoutes<'a, A: Allocator> {
    pub plan: &'a Plan<A>,
    pub origins: &'a [bool],
    pub lists: &'a [JoinedLists<A>],
    pub code: CodeId,
    ghost right: { AreOrigins plan.now origins.now },
    ghost net: { IsNet (joined_net plan.now lists.now code) } by { IsNet-prop _ },
}

impl<'a, A: Allocator> CodeNet for ChangeRoutes<'a, A> {
    ghost net = { λ r. joined_net r.plan.now r.lists.now r.code };

    fn exchanges(&self) -> usize {
        self.plan.exchanges()
    }

    fn exchange(&self, index: usize) -> ExchangeId {
        ExchangeId::of(index)
    }

    fn home(&self) -> ExchangeId {
        self.plan.home(self.code)
    }

    fn is_origin(&self, exchange: ExchangeId) -> bool {
        self.origins[exchange.index()]
            && match self.lists.get(exchange.index()) {
                Some(joined) => !joined.is_barred(),
                None => false,
            }
    }

    fn list(&self, exchange: ExchangeId) -> &[GroupId] {
        match self.lists.get(exchange.index()) {
            Some(joined) => joined.groups(),
            None => &[],
        }
    }

    fn fewest(&self, exchange: ExchangeId) -> usize {
        match self.lists.get(exchange.index()) {
            Some(joined) => joined.fewest(),
            None => 0,
        }
    }

    fn far(&self, group: GroupId, exchange: ExchangeId) -> ExchangeId {
        match self.plan.other_end(group, exchange) {
            Some(to) => to,
            None => unreachable!(),
        }
    }

    ghost is_net = { λ routes. routes.net };
}
