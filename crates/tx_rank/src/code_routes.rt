// The routes of one code of a plan.
ghost use Rattle.std.specs.Prelude.{◌≡◌, ◌<◌, ℕ, Bool, length, Some, slice_get, IfOk};
ghost use Rattle.tx_plan.specs.Routes.{is_origin};
ghost use Rattle.tx_rank.specs.Walks.{net_of};
ghost use Rattle.tx_rank.specs.Nets.{IsNet};
ghost use Rattle.tx_rank.specs.Judged.{AreOrigins};
ghost use Rattle.tx_rank.specs.inner.NetLaws.{IsNet-prop};

use crate::routes::CodeNet;
use std::alloc::Allocator;
use tx_plan::{CodeId, ExchangeId, GroupId, Plan};
use tx_text::NoMemory;

/// Whether calls may start at each exchange.
pub fn origins_of<A: Allocator + Copy>(alloc: A, plan: &Plan<A>) -> Result<Vec<bool, A>, NoMemory>
    ensures { IfOk result (λ origins. AreOrigins plan.now origins.items) }
{
    let mut origins = Vec::with_capacity(alloc, plan.exchanges())?;
    for index in 0..plan.exchanges() {
        origins.push_reserved(plan.is_origin(ExchangeId::of(index)));
    }
    Ok(origins)
}

/// The routes of one code of a plan.
#[derive(Drop)]
pub struct CodeRoutes<'a, A: Allocator> {
    pub plan: &'a Plan<A>,
    pub origins: &'a [bool],
    pub code: CodeId,
    ghost net: { IsNet (net_of plan.now code) } by { IsNet-prop (net_of plan.now code) },
    ghost right: { AreOrigins plan.now origins.now },
}

impl<'a, A: Allocator> CodeNet for CodeRoutes<'a, A> {
    ghost net = { λ r. net_of r.plan.now r.code };

    fn exchanges(&self) -> usize {
        self.plan.exchanges()
    }

    fn exchange(&self, index: usize) -> ExchangeId {
        ExchangeId::of(index)
    }

    fn home(&self) -> ExchangeId {
        self.plan.home(self.code)
    }

    fn is_origin(&self, exchange: ExchangeId) -> bool {
        self.origins[exchange.index()] && !self.plan.is_barred(exchange, self.code)
    }

    fn list(&self, exchange: ExchangeId) -> &[GroupId] {
        self.plan.list(exchange, self.code)
    }

    fn fewest(&self, exchange: ExchangeId) -> usize {
        self.plan.list(exchange, self.code).len()
    }

    fn far(&self, group: GroupId, exchange: ExchangeId) -> ExchangeId {
        match self.plan.other_end(group, exchange) {
            Some(to) => to,
            None => unreachable!(),
        }
    }

    ghost is_net = { λ routes. routes.net };
}
