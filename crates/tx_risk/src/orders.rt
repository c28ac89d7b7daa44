// The order in which exchanges are looked at.
ghost use Rattle.std.specs.Prelude.{◌≡◌, ◌<◌, ℕ, filter, is_some, length, IfOk};
ghost use Rattle.std.specs.List.{range_with_len};
ghost use Rattle.tx_plan.specs.Rules.{IsPlan};
ghost use Rattle.tx_plan.specs.Certified.{IsCertified};
ghost use Rattle.tx_cert.specs.Certificate.{ranks_of};
ghost use Rattle.tx_rank.specs.Walks.{net_of};
ghost use Rattle.tx_rank.specs.Nets.{Certifies};
ghost use Rattle.tx_risk.specs.inner.Orders.{IsOrder, IsByRank, AreOrders};

use std::alloc::Allocator;
use tx_cert::Cert;
use tx_plan::{CodeId, ExchangeId, Plan};
use tx_text::NoMemory;

/// The exchanges that have a rank for a code.
fn ranked<A: Allocator + Copy>(
    alloc: A,
    plan: &Plan<A>,
    ranks: &Cert<A>,
    code: CodeId,
) -> Result<Vec<ExchangeId, A>, NoMemory>
    ensures rules { IsPlan plan.now }
    ensures ranked { IfOk result (λ ranked. ranked.items
        ≡ filter (λ x. is_some (ranks_of ranks.now code x))
        (range_with_len 0 (length plan.now.exchanges))) }
{
    let mut ranked = Vec::with_capacity(alloc, plan.exchanges())?;
    for index in 0..plan.exchanges() {
        let exchange = ExchangeId::of(index);
        if ranks.rank(code, exchange).is_some() {
            ranked.push_reserved(exchange);
        }
    }
    Ok(ranked)
}

/// The exchanges to which calls for a code come, each after those to which it leads.
fn order_of<A: Allocator + Copy>(
    alloc: A,
    plan: &Plan<A>,
    ranks: &Cert<A>,
    code: CodeId,
) -> Result<Vec<ExchangeId, A>, NoMemory>
    requires code { code < length plan.now.codes }
    requires certified { (limit : ℕ) × (spare : ℕ)
        × Certifies (net_of plan.now code) (ranks_of ranks.now code) limit spare }
    ensures order { IfOk result (λ order. IsOrder (net_of plan.now code) order.items) }
    ensures by_rank { IfOk result (λ order. IsByRank (ranks_of ranks.now code) order.items) }
{
    let mut order = ranked(alloc, plan, ranks, code)?;
    order.sort_unstable_by_key(|exchange| ranks.rank(code, *exchange).unwrap_or(0));
    Ok(order)
}

/// The order for each code.
pub fn orders_of<A: Allocator + Copy>(
    alloc: A,
    plan: &Plan<A>,
    ranks: &Cert<A>,
) -> Result<Vec<Vec<ExchangeId, A>, A>, NoMemory>
    requires { (limit : ℕ) × (spare : ℕ) × IsCertified plan.now (ranks_of ranks.now) limit spare }
    ensures { IfOk result (λ orders. AreOrders plan.now (ranks_of ranks.now) orders.items) }
{
    let mut orders = Vec::with_capacity(alloc, plan.codes())?;
    for index in 0..plan.codes() {
        orders.push_reserved(order_of(alloc, plan, ranks, CodeId::of(index))?);
    }
    Ok(orders)
}
