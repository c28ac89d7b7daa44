// Which origins have no rank.
ghost use Rattle.std.specs.Prelude.{◌≡◌, ◌<◌, ◌&&◌, ℕ, Option, is_none, length};
ghost use Rattle.tx_plan.specs.Routes.{is_origin_for};
ghost use Rattle.tx_rank.specs.Judged.{AreOrigins};
ghost use Rattle.tx_mend.specs.LeastRanks.{ranks_origins};
ghost use Rattle.tx_mend.specs.inner.CodeRanks.{rank_list};

use std::alloc::Allocator;
use tx_plan::{CodeId, ExchangeId, Plan};

/// Whether calls for the code may start at an exchange.
fn is_start<A: Allocator>(
    plan: &Plan<A>,
    origins: &[bool],
    code: CodeId,
    exchange: ExchangeId,
) -> bool
    requires origins { AreOrigins plan.now origins.now }
    requires exchange { exchange < length plan.now.exchanges }
    ensures { result ≡ is_origin_for plan.now exchange code }
{
    origins[exchange.index()] && !plan.is_barred(exchange, code)
}

/// Whether they may, and the exchange has no rank.
pub fn is_unranked<A: Allocator>(
    plan: &Plan<A>,
    origins: &[bool],
    code: CodeId,
    ranks: &[Option<u8>],
    exchange: ExchangeId,
) -> bool
    requires origins { AreOrigins plan.now origins.now }
    requires long { length ranks.now ≡ length plan.now.exchanges }
    requires exchange { exchange < length plan.now.exchanges }
    ensures { (of : ℕ → Option ℕ) → ranks.now ≡ rank_list plan.now of
        → result ≡ (is_origin_for plan.now exchange code && is_none (of exchange)) }
{
    is_start(plan, origins, code, exchange) && ranks[exchange.index()].is_none()
}

/// Whether each origin for the code has a rank.
pub fn all_ranked<A: Allocator>(
    plan: &Plan<A>,
    origins: &[bool],
    code: CodeId,
    ranks: &[Option<u8>],
) -> bool
    requires origins { AreOrigins plan.now origins.now }
    requires long { length ranks.now ≡ length plan.now.exchanges }
    ensures { (of : ℕ → Option ℕ) → ranks.now ≡ rank_list plan.now of
        → result ≡ ranks_origins plan.now code of }
{
    for index in 0..plan.exchanges() {
        if is_unranked(plan, origins, code, ranks, ExchangeId::of(index)) {
            return false;
        }
    }
    true
}
