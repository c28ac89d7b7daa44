// The way of a call while there is no other.
ghost use Rattle.std.specs.Prelude.{◌≡◌, ◌<◌, ℕ, List, length, find, IfOk};
ghost use Rattle.std.specs.Option.{IfSome};
ghost use Rattle.tx_rank.specs.Walks.{end_of, before_end};
ghost use Rattle.tx_trace.specs.Ways.{has_free, first_step, next_step, first_way};
ghost use Rattle.tx_trace.specs.inner.Marked.{AreMarksOf};

use std::alloc::Allocator;
use tx_plan::{CodeId, ExchangeId, GroupId, Plan};
use tx_rank::far;
use tx_text::NoMemory;

/// Whether a group has a free circuit once the only call has gone this way.
fn has_free<A: Allocator>(plan: &Plan<A>, way: &[(GroupId, ExchangeId)], group: GroupId) -> bool
    ensures { result ≡ has_free plan.now way.now group }
{
    way.iter().filter(|step| step.0 == group).count() < plan.group_count(group) as usize
}

/// The first group of a list that has a free circuit.
fn first_free<A: Allocator>(
    plan: &Plan<A>,
    way: &[(GroupId, ExchangeId)],
    list: &[GroupId],
) -> Option<GroupId>
    ensures { result ≡ find (has_free plan.now way.now) list.now }
{
    list.iter()
        .copied()
        .find(|group| has_free(plan, way, *group))
}

/// The step by the first group of an exchange's list that has a free circuit. The home has none.
fn first_step<A: Allocator>(
    plan: &Plan<A>,
    code: CodeId,
    exchange: ExchangeId,
    way: &[(GroupId, ExchangeId)],
) -> Option<(GroupId, ExchangeId)>
    requires { code < length plan.now.codes }
    ensures step { result ≡ first_step plan.now code exchange way.now }
    ensures within { IfSome result (λ s. s.1 < length plan.now.exchanges) }
{
    if exchange == plan.home(code) {
        return None;
    }
    let group = first_free(plan, way, plan.list(exchange, code))?;
    Some((group, far(plan, code, exchange, group)))
}

/// The step by which a way goes on from its last exchange, unless it has passed that before.
fn next_step<A: Allocator>(
    plan: &Plan<A>,
    code: CodeId,
    passed: &[bool],
    last: ExchangeId,
    way: &[(GroupId, ExchangeId)],
) -> Option<(GroupId, ExchangeId)>
    requires code { code < length plan.now.codes }
    requires last { last < length plan.now.exchanges }
    requires long { length passed.now ≡ length plan.now.exchanges }
    ensures next { (x : ℕ) → last ≡ end_of x way.now → AreMarksOf (before_end x way.now) passed.now
        → result ≡ next_step plan.now code x way.now }
    ensures within { IfSome result (λ s. s.1 < length plan.now.exchanges) }
{
    if passed[last.index()] {
        return None;
    }
    first_step(plan, code, last, way)
}

/// The way of the only call: to the home, to an exchange where no group of the list has a free
/// circuit, or to where it comes back.
pub fn first_way<A: Allocator + Copy>(
    alloc: A,
    plan: &Plan<A>,
    code: CodeId,
    start: ExchangeId,
) -> Result<Vec<(GroupId, ExchangeId), A>, NoMemory>
    requires code { code < length plan.now.codes }
    requires start { start < length plan.now.exchanges }
    ensures { IfOk result (λ way. way.items ≡ first_way plan.now code start) }
{
    let mut passed = vec![in alloc; false; plan.exchanges()]?;
    let mut way = Vec::new(alloc);
    let mut last = start;
    while way.len() < plan.exchanges() {
        match next_step(plan, code, &passed, last, &way) {
            Some(step) => {
                way.push((step.0, step.1))?;
                passed[last.index()] = true;
                last = step.1;
            }
            None => return Ok(way),
        }
    }
    Ok(way)
}
