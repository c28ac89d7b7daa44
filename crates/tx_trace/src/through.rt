// Which calls can pass an exchange or a group.
ghost use Rattle.std.specs.Prelude.{◌≡◌, ◌<◌, ◌++◌, length, IfOk};
ghost use Rattle.tx_plan.specs.Routes.{is_origin_for};
ghost use Rattle.tx_rank.specs.Judged.{AreOrigins};
ghost use Rattle.tx_trace.specs.Through.{is_there, may_pass, passing, passing_for, calls_through};

use crate::meeting::all_met;
use std::alloc::Allocator;
use tx_plan::{CodeId, ExchangeId, GroupId, Pair, Plan};
use tx_rank::origins_of;
use tx_text::NoMemory;

/// An exchange or a group that calls pass.
#[derive(Clone, Copy)]
pub enum Through {
    Exchange(ExchangeId),
    Group(GroupId),
}

impl Through {
    /// Whether a call for a code that has come to an exchange is there, or may go on by the group.
    fn is_there<A: Allocator>(&self, plan: &Plan<A>, code: CodeId, at: ExchangeId) -> bool
        requires { code < length plan.now.codes }
        ensures { result ≡ is_there plan.now code self.now at }
    {
        match self {
            Through::Exchange(exchange) => at == *exchange,
            Through::Group(group) => {
                at != plan.home(code) && plan.list(at, code).contains(group)
            }
        }
    }
}

/// Whether calls for a code may come there from an exchange.
fn may_pass<A: Allocator + Copy>(
    alloc: A,
    plan: &Plan<A>,
    through: &Through,
    code: CodeId,
    start: ExchangeId,
) -> Result<bool, NoMemory>
    requires code { code < length plan.now.codes }
    requires start { start < length plan.now.exchanges }
    ensures { IfOk result (λ passes. passes ≡ may_pass plan.now through.now code start) }
{
    let met = all_met(alloc, plan, code, start)?;
    Ok(met.iter().any(|at| through.is_there(plan, code, *at)))
}

/// Whether calls for a code may start at an exchange.
pub(crate) fn may_start<A: Allocator>(
    plan: &Plan<A>,
    origins: &[bool],
    code: CodeId,
    start: ExchangeId,
) -> bool
    requires start { start < length plan.now.exchanges }
    requires origins { AreOrigins plan.now origins.now }
    ensures { result ≡ is_origin_for plan.now start code }
{
    origins[start.index()] && !plan.is_barred(start, code)
}

/// Adds a code and an exchange, if such calls may start there and pass.
fn add<A: Allocator + Copy>(
    alloc: A,
    plan: &Plan<A>,
    origins: &[bool],
    through: &Through,
    code: CodeId,
    start: ExchangeId,
    found: &mut Vec<Pair, A>,
) -> Result<(), NoMemory>
    requires code { code < length plan.now.codes }
    requires start { start < length plan.now.exchanges }
    requires origins { AreOrigins plan.now origins.now }
    ensures { IfOk result (λ _. found.new.items
        ≡ found.old.items ++ passing plan.now through.now code start) }
{
    if may_start(plan, origins, code, start) {
        if may_pass(alloc, plan, through, code, start)? {
            found.push(Pair {
                exchange: start,
                code,
            })?;
        }
    }
    Ok(())
}

/// Adds a code with each exchange from which calls for it may pass.
fn add_for<A: Allocator + Copy>(
    alloc: A,
    plan: &Plan<A>,
    origins: &[bool],
    through: &Through,
    code: CodeId,
    found: &mut Vec<Pair, A>,
) -> Result<(), NoMemory>
    requires code { code < length plan.now.codes }
    requires origins { AreOrigins plan.now origins.now }
    ensures { IfOk result (λ _. found.new.items
        ≡ found.old.items ++ passing_for plan.now through.now code) }
{
    for index in 0..plan.exchanges() {
        add(
            alloc,
            plan,
            origins,
            through,
            code,
            ExchangeId::of(index),
            found,
        )?;
    }
    Ok(())
}

/// Where calls start that may pass an exchange or a group, and their codes: by codes, and then by
/// exchanges.
pub fn calls_through<A: Allocator + Copy>(
    alloc: A,
    plan: &Plan<A>,
    through: &Through,
) -> Result<Vec<Pair, A>, NoMemory>
    ensures { IfOk result (λ found. found.items ≡ calls_through plan.now through.now) }
{
    let origins = origins_of(alloc, plan)?;
    let mut found = Vec::new(alloc);
    for index in 0..plan.codes() {
        add_for(
            alloc,
            plan,
            &origins,
            through,
            CodeId::of(index),
            &mut found,
        )?;
    }
    Ok(found)
}
