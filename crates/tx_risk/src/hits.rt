// Of which lists an outage leaves nothing.
ghost use Rattle.std.specs.Prelude.{◌≡◌, ◌<◌, ◌+◌, ◌==◌, ℕ, filter, length, not, IfOk};
ghost use Rattle.std.specs.List.{list_any};
ghost use Rattle.tx_plan.specs.Among.{Among};
ghost use Rattle.tx_risk.specs.Outages.{fails_at};
ghost use Rattle.tx_risk.specs.inner.Marked.{marked};
ghost use Rattle.tx_risk.specs.inner.Hits.{AreEnds, is_emptied};

use crate::cutting::is_failing;
use crate::left::{Left, is_marked};
use crate::outage::Outage;
use std::alloc::Allocator;
use tx_plan::{ExchangeId, GroupId, Plan};
use tx_text::NoMemory;

/// Whether an exchange is among these.
fn has_end(ends: &[ExchangeId], exchange: ExchangeId) -> bool
    ensures { result ≡ list_any (λ x. x == exchange) ends.now }
{
    ends.iter().any(|end| *end == exchange)
}

/// Adds an exchange, unless it is there.
fn add_end<A: Allocator>(
    ends: &mut Vec<ExchangeId, A>,
    exchange: ExchangeId,
) -> Result<(), NoMemory>
    ensures stays { IfOk result (λ _. (x : ℕ) → Among x ends.old.items → Among x ends.new.items) }
    ensures added { IfOk result (λ _. Among exchange ends.new.items) }
{
    if has_end(ends, exchange) {
        return Ok(());
    }
    ends.push(exchange)?;
    Ok(())
}

/// Adds both ends of the group at an index, if it is marked.
fn add_ends<A: Allocator>(
    plan: &Plan<A>,
    gone: &[bool],
    index: usize,
    ends: &mut Vec<ExchangeId, A>,
) -> Result<(), NoMemory>
    requires { index < 65536 }
    ensures { IfOk result (λ _. AreEnds plan.now (marked gone.now) index ends.old.items
        → AreEnds plan.now (marked gone.now) (index + 1) ends.new.items) }
{
    let group = GroupId::of(index);
    if !is_marked(gone, group) {
        return Ok(());
    }
    let both = plan.ends(group);
    add_end(ends, both.0)?;
    add_end(ends, both.1)?;
    Ok(())
}

/// The exchanges that are ends of marked groups.
pub fn ends_of<A: Allocator + Copy>(
    alloc: A,
    plan: &Plan<A>,
    gone: &[bool],
) -> Result<Vec<ExchangeId, A>, NoMemory>
    ensures { IfOk result (λ ends. AreEnds plan.now (marked gone.now) (length plan.now.groups)
        ends.items) }
{
    let mut ends = Vec::new(alloc);
    for index in 0..plan.groups() {
        add_ends(plan, gone, index, &mut ends)?;
    }
    Ok(ends)
}

/// Whether an exchange has a list for the code, and nothing is left of it.
fn is_emptied<A: Allocator>(left: &Left<'_, A>, exchange: ExchangeId) -> bool
    ensures { result ≡ is_emptied left.now exchange }
{
    let list = left.list(exchange);
    !list.is_empty() && left.are_gone(list)
}

/// Those of these exchanges that are emptied.
pub fn emptied<A: Allocator + Copy>(
    alloc: A,
    left: &Left<'_, A>,
    ends: &[ExchangeId],
) -> Result<Vec<ExchangeId, A>, NoMemory>
    ensures { IfOk result (λ emptied. emptied.items ≡ filter (is_emptied left.now) ends.now) }
{
    let mut emptied = Vec::new(alloc);
    for end in ends {
        if is_emptied(left, *end) {
            emptied.push(*end)?;
        }
    }
    Ok(emptied)
}

/// Whether one of these exchanges does not fail.
pub fn is_hit(emptied: &[ExchangeId], outage: &Outage) -> bool
    ensures { result ≡ list_any (λ x. not (fails_at outage.now x)) emptied.now }
{
    emptied
        .iter()
        .any(|exchange| !is_failing(outage, *exchange))
}
