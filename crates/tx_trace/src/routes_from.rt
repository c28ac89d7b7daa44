// The routes of one code of a plan, for calls that start at one exchange.
ghost use Rattle.std.specs.Prelude.{◌<◌, length};
ghost use Rattle.tx_rank.specs.Nets.{IsNet};
ghost use Rattle.tx_rank.specs.inner.NetLaws.{IsNet-prop};
ghost use Rattle.tx_trace.specs.Ranked.{net_from};

use std::alloc::Allocator;
use tx_plan::{CodeId, ExchangeId, GroupId, Plan};
use tx_rank::{CodeNet, far};

/// The routes of one code of a plan, for calls that start at one exchange.
#[derive(Drop)]
pub struct RoutesFrom<'a, A: Allocator> {
    pub plan: &'a Plan<A>,
    pub code: CodeId,
    pub start: ExchangeId,
    ghost known: { code < length plan.now.codes },
    ghost net: { IsNet (net_from plan.now code start) } by { IsNet-prop (net_from plan.now code start) },
}

impl<'a, A: Allocator> CodeNet for RoutesFrom<'a, A> {
    ghost net = { λ r. net_from r.plan.now r.code r.start };

    fn exchanges(&self) -> usize {
        self.plan.exchanges()
    }

    fn exchange(&self, index: usize) -> ExchangeId {
        ExchangeId::of(index)
    }

    fn home(&self) -> ExchangeId {
        self.plan.home(self.code)
    }

    fn is_origin(&self, exchange: ExchangeId) -> bool {
        exchange == self.start
    }

    fn list(&self, exchange: ExchangeId) -> &[GroupId] {
        self.plan.list(exchange, self.code)
    }

    fn fewest(&self, exchange: ExchangeId) -> usize {
        self.plan.list(exchange, self.code).len()
    }

    fn far(&self, group: GroupId, exchange: ExchangeId) -> ExchangeId {
        far(self.plan, self.code, exchange, group)
    }

    ghost is_net = { λ routes. routes.net };
}
