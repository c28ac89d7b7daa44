// Where groups lead, by ranks.
ghost use Rattle.std.specs.Prelude.{◌≡◌, ◌<◌, ℕ, Option, length};
ghost use Rattle.tx_mend.specs.LeastRanks.{rank_across, leads_on};
ghost use Rattle.tx_mend.specs.KeptRanks.{leads_below, stays_by};
ghost use Rattle.tx_mend.specs.Lists.{leads_to};
ghost use Rattle.tx_mend.specs.inner.CodeRanks.{rank_list};

use std::alloc::Allocator;
use tx_plan::{ExchangeId, GroupId, Plan};

/// The rank of the exchange to which a group leads from another one.
pub fn rank_across<A: Allocator>(
    plan: &Plan<A>,
    ranks: &[Option<u8>],
    exchange: ExchangeId,
    group: GroupId,
) -> Option<u8>
    requires { length ranks.now ≡ length plan.now.exchanges }
    ensures { (of : ℕ → Option ℕ) → ranks.now ≡ rank_list plan.now of
        → result ≡ rank_across plan.now of exchange group }
{
    match plan.other_end(group, exchange) {
        Some(to) => ranks[to.index()],
        None => None,
    }
}

/// Whether a group leads to a ranked exchange.
pub fn leads_on<A: Allocator>(
    plan: &Plan<A>,
    ranks: &[Option<u8>],
    exchange: ExchangeId,
    group: GroupId,
) -> bool
    requires { length ranks.now ≡ length plan.now.exchanges }
    ensures { (of : ℕ → Option ℕ) → ranks.now ≡ rank_list plan.now of
        → result ≡ leads_on plan.now of exchange group }
{
    rank_across(plan, ranks, exchange, group).is_some()
}

/// Whether a group leads to this rank.
pub fn leads_to<A: Allocator>(
    plan: &Plan<A>,
    ranks: &[Option<u8>],
    exchange: ExchangeId,
    rank: u8,
    group: GroupId,
) -> bool
    requires { length ranks.now ≡ length plan.now.exchanges }
    ensures { (of : ℕ → Option ℕ) → ranks.now ≡ rank_list plan.now of
        → result ≡ leads_to plan.now of rank exchange group }
{
    match rank_across(plan, ranks, exchange, group) {
        Some(to) => to == rank,
        None => false,
    }
}

/// Whether a group leads below a rank.
pub fn leads_below<A: Allocator>(
    plan: &Plan<A>,
    ranks: &[Option<u8>],
    exchange: ExchangeId,
    rank: u8,
    group: GroupId,
) -> bool
    requires { length ranks.now ≡ length plan.now.exchanges }
    ensures { (of : ℕ → Option ℕ) → ranks.now ≡ rank_list plan.now of
        → result ≡ leads_below plan.now of rank exchange group }
{
    match rank_across(plan, ranks, exchange, group) {
        Some(to) => to < rank,
        None => false,
    }
}

/// Whether by these ranks a group stays in the list of an exchange: it leads to a smaller rank, or
/// the exchange has none.
pub fn stays<A: Allocator>(
    plan: &Plan<A>,
    ranks: &[Option<u8>],
    exchange: ExchangeId,
    group: GroupId,
) -> bool
    requires long { length ranks.now ≡ length plan.now.exchanges }
    requires exchange { exchange < length plan.now.exchanges }
    ensures { (of : ℕ → Option ℕ) → ranks.now ≡ rank_list plan.now of
        → result ≡ stays_by plan.now of exchange group }
{
    match ranks[exchange.index()] {
        Some(rank) => leads_below(plan, ranks, exchange, rank, group),
        None => true,
    }
}
