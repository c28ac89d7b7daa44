// Which calls of a plan go another way than in an old plan.
ghost use Rattle.std.specs.Prelude.{◌≡◌, ◌<◌, ◌++◌, length, map, Some, IfOk};
ghost use Rattle.std.specs.List.{AllByRecursion};
ghost use Rattle.std.specs.Option.{IfSome};
ghost use Rattle.tx_rank.specs.Judged.{AreOrigins};
ghost use Rattle.tx_trace.specs.WayChanges.{is_same_step, are_same_steps, is_same_way, is_named, are_named, go_alike, changed, same_calls, changed_at, changed_for, changed_calls, AreWaysOf, AreWaysIn, calls_of};

use crate::first_way::first_way;
use crate::meeting::all_met;
use crate::through::may_start;
use std::alloc::{Allocator, Global};
use tx_plan::{CodeId, ExchangeId, GroupId, Pair, Plan};
use tx_rank::origins_of;
use tx_text::NoMemory;

/// The ways of calls for a code from an exchange.
pub struct Ways<A: Allocator = Global> {
    /// Where the calls start, and their code.
    pub calls: Pair,
    /// The steps of the way while all is free.
    pub first: Vec<(GroupId, ExchangeId), A>,
    /// The exchanges that the calls may come to.
    pub met: Vec<ExchangeId, A>,
}

impl<A: Allocator> Drop for Ways<A> {
    fn drop(self) {
        let Self {
            calls: _,
            first,
            met,
        } = self;
        drop(first);
        drop(met);
    }
}

/// The ways of such calls in a plan, and in an old one.
pub struct WayChange<A: Allocator = Global> {
    pub ways: Ways<A>,
    pub were: Ways<A>,
}

impl<A: Allocator> Drop for WayChange<A> {
    fn drop(self) {
        let Self { ways, were } = self;
        drop(ways);
        drop(were);
    }
}

/// The ways of calls in a plan.
fn ways_of<A: Allocator + Copy>(alloc: A, plan: &Plan<A>, calls: Pair) -> Result<Ways<A>, NoMemory>
    requires code { calls.code < length plan.now.codes }
    requires start { calls.exchange < length plan.now.exchanges }
    ensures calls { IfOk result (λ w. w.calls ≡ calls) }
    ensures ways { IfOk result (AreWaysOf plan.now) }
{
    let first = first_way(alloc, plan, calls.code, calls.exchange)?;
    let met = all_met(alloc, plan, calls.code, calls.exchange)?;
    Ok(Ways { calls, first, met })
}

/// Whether two steps are by groups of one name to exchanges of one name.
fn is_same_step<A: Allocator>(
    plan: &Plan<A>,
    old: &Plan<A>,
    step: &(GroupId, ExchangeId),
    other: &(GroupId, ExchangeId),
) -> bool
    ensures { result ≡ is_same_step plan.now old.now step.now other.now }
{
    plan.group_name(step.0) == old.group_name(other.0)
        && plan.exchange_name(step.1) == old.exchange_name(other.1)
}

/// Whether the steps at the same places are.
fn are_same_steps<A: Allocator>(
    plan: &Plan<A>,
    old: &Plan<A>,
    way: &[(GroupId, ExchangeId)],
    other: &[(GroupId, ExchangeId)],
) -> bool
    ensures { result ≡ are_same_steps plan.now old.now way.now other.now }
{
    way.iter()
        .zip(other.iter())
        .all(|(step, other)| is_same_step(plan, old, step, other))
}

/// Whether two ways have the same steps.
pub(crate) fn is_same_way<A: Allocator>(
    plan: &Plan<A>,
    old: &Plan<A>,
    way: &[(GroupId, ExchangeId)],
    other: &[(GroupId, ExchangeId)],
) -> bool
    ensures { result ≡ is_same_way plan.now old.now way.now other.now }
{
    way.len() == other.len() && are_same_steps(plan, old, way, other)
}

/// Whether one of these exchanges has the name.
pub(crate) fn is_named<A: Allocator>(plan: &Plan<A>, met: &[ExchangeId], name: &[u8]) -> bool
    ensures { result ≡ is_named plan.now met.now name.now }
{
    met.iter()
        .any(|exchange| plan.exchange_name(*exchange) == name)
}

/// Whether each exchange of a plan has the name of one of those of another.
fn are_named<A: Allocator>(
    plan: &Plan<A>,
    other: &Plan<A>,
    met: &[ExchangeId],
    others: &[ExchangeId],
) -> bool
    ensures { result ≡ are_named plan.now other.now met.now others.now }
{
    met.iter().all(|exchange| is_named(other, others, plan.exchange_name(*exchange)))
}

impl<A: Allocator> WayChange<A> {
    /// Whether the calls have the same first way in both plans, and may come to the same exchanges.
    fn is_none(&self, plan: &Plan<A>, old: &Plan<A>) -> bool
        requires { AreWaysIn plan.now old.now self.now }
        ensures { result ≡ go_alike plan.now old.now self.now.ways.calls self.now.were.calls }
    {
        is_same_way(plan, old, &self.ways.first, &self.were.first)
            && are_named(plan, old, &self.ways.met, &self.were.met)
            && are_named(old, plan, &self.were.met, &self.ways.met)
    }
}

/// Adds the ways of some calls in a plan, and of those in an old plan, if they do not go alike.
fn add<A: Allocator + Copy>(
    alloc: A,
    plan: &Plan<A>,
    old: &Plan<A>,
    calls: Pair,
    were: Pair,
    found: &mut Vec<WayChange<A>, A>,
) -> Result<(), NoMemory>
    requires code { calls.code < length plan.now.codes }
    requires start { calls.exchange < length plan.now.exchanges }
    requires old_code { were.code < length old.now.codes }
    requires old_start { were.exchange < length old.now.exchanges }
    requires ways { AllByRecursion (AreWaysIn plan.now old.now) found.old.items }
    ensures ways { IfOk result (λ _. AllByRecursion (AreWaysIn plan.now old.now) found.new.items) }
    ensures calls { IfOk result (λ _. map calls_of found.new.items
        ≡ map calls_of found.old.items ++ changed plan.now old.now calls were) }
{
    let ways = ways_of(alloc, plan, calls)?;
    let were = ways_of(alloc, old, were)?;
    let change = WayChange { ways, were };
    if !change.is_none(plan, old) {
        found.push(change)?;
    }
    Ok(())
}

/// The ways of some calls in a plan, and of those in an old plan, if they do not go alike.
pub fn change_of_calls<A: Allocator + Copy>(
    alloc: A,
    plan: &Plan<A>,
    old: &Plan<A>,
    calls: Pair,
    were: Pair,
) -> Result<Vec<WayChange<A>, A>, NoMemory>
    requires code { calls.code < length plan.now.codes }
    requires start { calls.exchange < length plan.now.exchanges }
    requires old_code { were.code < length old.now.codes }
    requires old_start { were.exchange < length old.now.exchanges }
    ensures ways { IfOk result (λ found. AllByRecursion (AreWaysIn plan.now old.now) found.items) }
    ensures calls { IfOk result (λ found. map calls_of found.items
        ≡ changed plan.now old.now calls were) }
{
    let mut found = Vec::new(alloc);
    add(alloc, plan, old, calls, were, &mut found)?;
    Ok(found)
}

/// The calls of an old plan for the same code from the same exchange, if they may start in both.
fn same_calls<A: Allocator>(
    plan: &Plan<A>,
    old: &Plan<A>,
    origins: &[bool],
    code: CodeId,
    exchange: ExchangeId,
) -> Option<Pair>
    requires start { exchange < length plan.now.exchanges }
    requires origins { AreOrigins plan.now origins.now }
    ensures calls { result ≡ same_calls plan.now old.now code exchange }
    ensures code { IfSome result (λ were. were.code < length old.now.codes) }
    ensures start { IfSome result (λ were. were.exchange < length old.now.exchanges) }
{
    if !may_start(plan, origins, code, exchange) {
        return None;
    }
    let were = old.pair_named(plan.exchange_name(exchange), plan.code_figures(code))?;
    if old.is_origin_for(were.exchange, were.code) {
        Some(were)
    } else {
        None
    }
}

/// Adds those for a code from an exchange, if they may start there in both plans.
fn add_at<A: Allocator + Copy>(
    alloc: A,
    plan: &Plan<A>,
    old: &Plan<A>,
    origins: &[bool],
    code: CodeId,
    exchange: ExchangeId,
    found: &mut Vec<WayChange<A>, A>,
) -> Result<(), NoMemory>
    requires code { code < length plan.now.codes }
    requires start { exchange < length plan.now.exchanges }
    requires origins { AreOrigins plan.now origins.now }
    requires ways { AllByRecursion (AreWaysIn plan.now old.now) found.old.items }
    ensures ways { IfOk result (λ _. AllByRecursion (AreWaysIn plan.now old.now) found.new.items) }
    ensures calls { IfOk result (λ _. map calls_of found.new.items
        ≡ map calls_of found.old.items ++ changed_at plan.now old.now code exchange) }
{
    match same_calls(plan, old, origins, code, exchange) {
        Some(were) => add(alloc, plan, old, Pair { exchange, code }, were, found),
        None => Ok(()),
    }
}

/// Adds those for a code.
fn add_for<A: Allocator + Copy>(
    alloc: A,
    plan: &Plan<A>,
    old: &Plan<A>,
    origins: &[bool],
    code: CodeId,
    found: &mut Vec<WayChange<A>, A>,
) -> Result<(), NoMemory>
    requires code { code < length plan.now.codes }
    requires origins { AreOrigins plan.now origins.now }
    requires ways { AllByRecursion (AreWaysIn plan.now old.now) found.old.items }
    ensures ways { IfOk result (λ _. AllByRecursion (AreWaysIn plan.now old.now) found.new.items) }
    ensures calls { IfOk result (λ _. map calls_of found.new.items
        ≡ map calls_of found.old.items ++ changed_for plan.now old.now code) }
{
    for index in 0..plan.exchanges() {
        let exchange = ExchangeId::of(index);
        add_at(alloc, plan, old, origins, code, exchange, found)?;
    }
    Ok(())
}

/// The ways of all calls that may start in both plans, and do not go as in the old one.
pub fn changes_of_ways<A: Allocator + Copy>(
    alloc: A,
    plan: &Plan<A>,
    old: &Plan<A>,
) -> Result<Vec<WayChange<A>, A>, NoMemory>
    ensures ways { IfOk result (λ found. AllByRecursion (AreWaysIn plan.now old.now) found.items) }
    ensures calls { IfOk result (λ found. map calls_of found.items
        ≡ changed_calls plan.now old.now) }
{
    let origins = origins_of(alloc, plan)?;
    let mut found = Vec::new(alloc);
    for index in 0..plan.codes() {
        add_for(alloc, plan, old, &origins, CodeId::of(index), &mut found)?;
    }
    Ok(found)
}
