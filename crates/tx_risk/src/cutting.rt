// From where a risk cuts off a code.
ghost use Rattle.std.specs.Prelude.{◌≡◌, ◌<◌, ◌≤◌, ◌+◌, ◌^◌, ℕ, List, length, take, IfOk};
ghost use Rattle.tx_plan.specs.Among.{Among};
ghost use Rattle.tx_plan.specs.Certified.{IsCertified};
ghost use Rattle.tx_cert.specs.Certificate.{ranks_of};
ghost use Rattle.tx_rank.specs.Judged.{AreOrigins};
ghost use Rattle.tx_risk.specs.Outages.{is_asked, fails_at};
ghost use Rattle.tx_risk.specs.Survivals.{HasGrade};
ghost use Rattle.tx_risk.specs.declared.cut.Cut.{Cut};
ghost use Rattle.tx_risk.specs.declared.cut.Leg.{Leg};
ghost use Rattle.tx_risk.specs.inner.Left.{gone, left_net};
ghost use Rattle.tx_risk.specs.inner.Orders.{IsOrder, IsByRank, is_above};
ghost use Rattle.tx_risk.specs.inner.Hits.{AreEnds, TakesItsGroups};
ghost use Rattle.tx_risk.specs.inner.Nearest.{AreDeadEnds, LeadsToDeadEnd, AreAllWays, Grows};
ghost use Rattle.tx_risk.specs.inner.Cutting.{Adds, AreCuts, AreCutsBefore};

use crate::cut::{Cut, Leg};
use crate::hits::{emptied, is_hit};
use crate::left::Left;
use crate::nearest::{Ways, ways_at, ways_of};
use crate::outage::Outage;
use std::alloc::Allocator;
use tx_cert::Cert;
use tx_plan::{CodeId, ExchangeId};
use tx_text::NoMemory;

/// Whether an exchange is the one that fails.
pub fn is_failing(outage: &Outage, exchange: ExchangeId) -> bool
    ensures { result ≡ fails_at outage.now exchange }
{
    match outage {
        Outage::Exchange(failing) => exchange == *failing,
        Outage::Group(_) | Outage::Named(_) => false,
    }
}

/// Adds the cut from an exchange, if there is one and it is in question.
fn add_cut<A: Allocator>(
    left: &Left<'_, A>,
    origins: &[bool],
    outage: &Outage,
    kept: &[Ways],
    exchange: ExchangeId,
    cuts: &mut Vec<Cut, A>,
) -> Result<(), NoMemory>
    requires exchange { exchange < length left.now.plan.exchanges }
    requires grade { HasGrade left.now.plan }
    requires origins { AreOrigins left.now.plan origins.now }
    ensures { IfOk result (λ _. (legs : List Leg) → AreAllWays (left_net left.now) legs kept.now
        → (first : List Cut)
        → Adds (AreCutsBefore left.now outage.now legs exchange) first cuts.old.items
        → Adds (AreCutsBefore left.now outage.now legs (exchange + 1)) first cuts.new.items) }
{
    let ways = ways_at(kept, exchange);
    let Some(steps) = ways.dead_end else {
        return Ok(());
    };
    if !is_asked(left, origins, outage, exchange) {
        return Ok(());
    }
    cuts.push(Cut {
        code: left.code,
        start: exchange,
        end: ways.end,
        first: ways.first,
        steps,
        stray: ways.home,
    })?;
    Ok(())
}

/// Whether calls for the code may start at an exchange, and are in question.
fn is_asked<A: Allocator>(
    left: &Left<'_, A>,
    origins: &[bool],
    outage: &Outage,
    exchange: ExchangeId,
) -> bool
    requires origins { AreOrigins left.now.plan origins.now }
    requires exchange { exchange < length left.now.plan.exchanges }
    ensures { result ≡ is_asked left.now.plan outage.now left.now.code exchange }
{
    (origins[exchange.index()] && !left.plan.is_barred(exchange, left.code))
        && (!is_failing(outage, exchange) && !is_failing(outage, left.plan.home(left.code)))
}

/// Whether an exchange is ranked above one of these.
fn is_above<A: Allocator>(
    ranks: &Cert<A>,
    code: CodeId,
    exchange: ExchangeId,
    others: &[ExchangeId],
) -> bool
    ensures { result ≡ is_above (ranks_of ranks.now code) others.now exchange }
{
    let rank = ranks.rank(code, exchange).unwrap_or(0);
    others
        .iter()
        .any(|other| ranks.rank(code, *other).unwrap_or(0) < rank)
}

/// How many exchanges of the order come before all that are ranked above a dead end. From none of
/// them a way leads to a dead end, but from the dead ends themselves.
fn not_above<A: Allocator>(
    ranks: &Cert<A>,
    left: &Left<'_, A>,
    dead_ends: &[ExchangeId],
    order: &[ExchangeId],
) -> usize
    requires certified { (limit : ℕ) × (spare : ℕ)
        × IsCertified left.now.plan (ranks_of ranks.now) limit spare }
    requires order { IsOrder (left_net left.now) order.now }
    requires by_rank { IsByRank (ranks_of ranks.now left.now.code) order.now }
    requires dead_ends { AreDeadEnds (left_net left.now) order.now dead_ends.now }
    ensures { (x : ℕ) → Among x (take result order.now)
        → LeadsToDeadEnd (left_net left.now) x → Among x dead_ends.now }
{
    let code = left.code;
    order.partition_point(|exchange| !is_above(ranks, code, *exchange, dead_ends))
}

/// Adds the cuts of one code, in order of the exchanges, where these are the ends of groups that go,
/// and the legs of their walks.
/// There are none where only the exchange that fails is emptied.
pub fn add_cuts<A: Allocator + Copy>(
    alloc: A,
    left: &Left<'_, A>,
    ranks: &Cert<A>,
    order: &[ExchangeId],
    ends: &[ExchangeId],
    origins: &[bool],
    outage: &Outage,
    cuts: &mut Vec<Cut, A>,
    legs: &mut Vec<Leg, A>,
) -> Result<(), NoMemory>
    requires certified { (limit : ℕ) × (spare : ℕ)
        × IsCertified left.now.plan (ranks_of ranks.now) limit spare }
    requires order { IsOrder (left_net left.now) order.now }
    requires by_rank { IsByRank (ranks_of ranks.now left.now.code) order.now }
    requires ends { AreEnds left.now.plan (gone left.now) (length left.now.plan.groups) ends.now }
    requires takes { TakesItsGroups left.now.plan (gone left.now) outage.now }
    requires origins { AreOrigins left.now.plan origins.now }
    requires room { length legs.old.items + 256 ≤ 2 ^ 32 }
    ensures cuts { IfOk result (λ _.
        Adds (AreCuts left.now outage.now legs.new.items) cuts.old.items cuts.new.items) }
    ensures grown { IfOk result (λ _. Grows legs.old.items legs.new.items) }
{
    let exchanges = left.exchanges();
    let dead_ends = emptied(alloc, left, ends)?;
    if !is_hit(&dead_ends, outage) {
        return Ok(());
    }
    let from = not_above(ranks, left, &dead_ends, order);
    let kept = ways_of(alloc, left, &dead_ends, order, from, legs)?;
    for index in 0..exchanges {
        let exchange = ExchangeId::of(index);
        add_cut(left, origins, outage, &kept, exchange, cuts)?;
    }
    Ok(())
}
