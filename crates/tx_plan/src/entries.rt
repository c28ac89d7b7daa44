// What a declaration adds to a plan, or why it is refused.
ghost use Rattle.std.specs.Prelude.{◌≡◌, ◌≤◌, ◌<◌, Some, None, is_some, true, false, not, map, ◌||◌, ◌&&◌, nat_le, IfOk, IfErr, OnOk, length};
ghost use Rattle.std.specs.List.{list_any};
ghost use Rattle.std.specs.Result.{result_err};
ghost use Rattle.tx_text.specs.Words.{is_name};
ghost use Rattle.tx_plan.specs.Plan.{exchange_named, code_named, group_named};
ghost use Rattle.tx_plan.specs.Routes.{is_barred};
ghost use Rattle.tx_plan.specs.inner.RouteScan.{IsScanOf};
ghost use Rattle.tx_plan.specs.Declaring.{first_true, exchange_refusals, code_refusals, lines_refusals, group_refusals, route_refusals, route_plan_refusals, route_group_refusals, bar_refusals, route_word_refusals, has_exchange, has_code, has_group, has_route, pair_named, is_ordered, exchange_at, code_at, group_at};

use crate::ids::{Direction, ExchangeId, GroupRow, National, Pair, at_most};
use crate::names::NameKey;
use crate::plan::Plan;
use crate::range::LineRange;
use crate::refusal::PlanRefusal;
use crate::route_scan::{RouteScan, scan};
use crate::routes::{GroupList, none_twice};
use std::alloc::Allocator;
use tx_text::{Words, are_figures, is_name};

/// The name of a new exchange, or why it is refused.
pub(crate) fn exchange_entry<A: Allocator>(
    plan: &Plan<A>,
    name: &[u8],
) -> Result<NameKey, PlanRefusal>
    ensures err { IfErr result (λ e. first_true (exchange_refusals plan.now name.now) ≡ Some e) }
    ensures ok { OnOk result (first_true (exchange_refusals plan.now name.now) ≡ None) }
    ensures entry { IfOk result (λ e. e ≡ name.now) }
    ensures fresh { OnOk result (has_exchange plan.now name.now ≡ false) }
{
    if !is_name(name) {
        return Err(PlanRefusal::BadName);
    }
    if plan.exchange_named(name).is_some() {
        return Err(PlanRefusal::Duplicate);
    }
    if plan.exchanges() >= 256 {
        return Err(PlanRefusal::TooMany);
    }
    Ok(NameKey::new(name))
}

/// The figures and the home of a new code, or why it is refused.
pub(crate) fn code_entry<A: Allocator>(
    plan: &Plan<A>,
    code: &[u8],
    home: &[u8],
) -> Result<(NameKey, ExchangeId), PlanRefusal>
    ensures err { IfErr result (λ e. first_true (code_refusals plan.now code.now home.now)
        ≡ Some e) }
    ensures ok { OnOk result (first_true (code_refusals plan.now code.now home.now) ≡ None) }
    ensures entry { IfOk result (λ e. e ≡ (code.now, exchange_at plan.now home.now)) }
    ensures fresh { OnOk result (has_code plan.now code.now ≡ false) }
{
    if !is_name(home) {
        return Err(PlanRefusal::BadName);
    }
    if !are_figures(code, 2, 3) {
        return Err(PlanRefusal::BadCode);
    }
    if plan.code_named(code).is_some() {
        return Err(PlanRefusal::Duplicate);
    }
    let Some(home) = plan.exchange_named(home) else {
        return Err(PlanRefusal::Unknown);
    };
    if plan.codes() >= 1100 {
        return Err(PlanRefusal::TooMany);
    }
    Ok((NameKey::new(code), home))
}

/// Whether low and high have one width, and low is not above high.
fn is_ordered(low: &[u8], high: &[u8]) -> bool
    ensures { result ≡ is_ordered low.now high.now }
{
    low.len() == high.len() && at_most(low, high)
}

/// A new range, or why it is refused.
pub(crate) fn range_entry<A: Allocator>(
    plan: &Plan<A>,
    code: &[u8],
    low: &[u8],
    high: &[u8],
) -> Result<LineRange, PlanRefusal>
    ensures err { IfErr result (λ e. first_true (lines_refusals plan.now code.now low.now high.now)
        ≡ Some e) }
    ensures ok { OnOk result (first_true (lines_refusals plan.now code.now low.now high.now)
        ≡ None) }
    ensures entry { IfOk result
        (λ e. e ≡ record { code = code_at plan.now code.now; low = low.now; high = high.now }) }
{
    if !are_figures(code, 2, 3) {
        return Err(PlanRefusal::BadCode);
    }
    let Some(least) = National::read(low) else {
        return Err(PlanRefusal::BadNumber);
    };
    let Some(greatest) = National::read(high) else {
        return Err(PlanRefusal::BadNumber);
    };
    let Some(index) = plan.code_named(code) else {
        return Err(PlanRefusal::Unknown);
    };
    if !is_ordered(low, high) {
        return Err(PlanRefusal::RangeOrder);
    }
    if plan.overlaps(index, low, high) {
        return Err(PlanRefusal::Overlap);
    }
    if plan.ranges() >= 4096 {
        return Err(PlanRefusal::TooMany);
    }
    Ok(LineRange {
        code: index,
        low: least,
        high: greatest,
    })
}

/// Whether each is a name.
fn are_names(name: &[u8], a: &[u8], b: &[u8]) -> bool
    ensures gives { not result
        ≡ (not (is_name name.now) || (not (is_name a.now) || not (is_name b.now))) }
    ensures short { result ≡ true → length name.now ≤ 8 }
{
    is_name(name) && is_name(a) && is_name(b)
}

/// Whether a group may have so many circuits.
fn is_count(count: u32) -> bool
    ensures { result ≡ (nat_le 1 count && nat_le count 240) }
{
    count >= 1 && count <= 240
}

/// The name of a new group and its row, or why it is refused.
pub(crate) fn group_entry<A: Allocator>(
    plan: &Plan<A>,
    name: &[u8],
    a: &[u8],
    b: &[u8],
    direction: Direction,
    count: u32,
) -> Result<(NameKey, GroupRow), PlanRefusal>
    ensures err { IfErr result (λ e. first_true (group_refusals plan.now name.now a.now b.now count)
        ≡ Some e) }
    ensures ok { OnOk result (first_true (group_refusals plan.now name.now a.now b.now count)
        ≡ None) }
    ensures entry { IfOk result (λ e. e ≡ (
      name.now,
      record {
        a = exchange_at plan.now a.now;
        b = exchange_at plan.now b.now;
        direction = direction;
        count = count;
      },
    )) }
    ensures fresh { OnOk result (has_group plan.now name.now ≡ false) }
{
    if !are_names(name, a, b) {
        return Err(PlanRefusal::BadName);
    }
    if !is_count(count) {
        return Err(PlanRefusal::BadNumber);
    }
    if plan.group_named(name).is_some() {
        return Err(PlanRefusal::Duplicate);
    }
    let Some(first) = plan.exchange_named(a) else {
        return Err(PlanRefusal::Unknown);
    };
    let Some(second) = plan.exchange_named(b) else {
        return Err(PlanRefusal::Unknown);
    };
    if a == b {
        return Err(PlanRefusal::SameEnds);
    }
    if plan.groups() >= 4096 {
        return Err(PlanRefusal::TooMany);
    }
    let row = GroupRow {
        a: first,
        b: second,
        direction,
        count: count as u8,
    };
    Ok((NameKey::new(name), row))
}

/// A new bar, or why it is refused.
pub(crate) fn bar_entry<A: Allocator>(
    plan: &Plan<A>,
    exchange: &[u8],
    code: &[u8],
) -> Result<Pair, PlanRefusal>
    ensures err { IfErr result (λ e. first_true (bar_refusals plan.now exchange.now code.now)
        ≡ Some e) }
    ensures ok { OnOk result (first_true (bar_refusals plan.now exchange.now code.now) ≡ None) }
    ensures entry { IfOk result (λ e. e ≡ record {
      exchange = exchange_at plan.now exchange.now;
      code = code_at plan.now code.now;
    }) }
    ensures fresh { IfOk result (λ e. is_barred plan.now e.exchange e.code ≡ false) }
{
    if !is_name(exchange) {
        return Err(PlanRefusal::BadName);
    }
    if !are_figures(code, 2, 3) {
        return Err(PlanRefusal::BadCode);
    }
    let Some(pair) = plan.pair_named(exchange, code) else {
        return Err(PlanRefusal::Unknown);
    };
    if plan.is_barred(pair.exchange, pair.code) {
        return Err(PlanRefusal::Duplicate);
    }
    if plan.home(pair.code) == pair.exchange {
        return Err(PlanRefusal::BarAtHome);
    }
    Ok(pair)
}

/// What the words of a route refuse by themselves.
fn route_words(
    exchange: &[u8],
    code: &[u8],
    groups: &Words<'_>,
    bad: bool,
) -> Result<(), PlanRefusal>
    requires bad { bad ≡ list_any (λ g. not (is_name g)) groups.now }
    ensures { result_err result
        ≡ first_true (route_word_refusals exchange.now code.now groups.now) }
{
    if groups.again().next().is_none() {
        return Err(PlanRefusal::WrongCount);
    }
    if bad || !is_name(exchange) {
        return Err(PlanRefusal::BadName);
    }
    if !are_figures(code, 2, 3) {
        return Err(PlanRefusal::BadCode);
    }
    Ok(())
}

/// Why the groups are refused to a declared pair, all of them being declared.
#[tactic(auto, using(crate::proofs::SeenWords::differ_as_words))]
fn route_groups<A: Allocator>(
    plan: &Plan<A>,
    pair: &Pair,
    groups: &Words<'_>,
    scan: &RouteScan,
) -> Result<(), PlanRefusal>
    requires scan { IsScanOf plan.now (Some pair.now) groups.now scan.now }
    requires known { scan.now.unknown ≡ false }
    ensures gives { result_err result
        ≡ first_true (route_group_refusals plan.now (Some pair.now) groups.now) }
    ensures few { OnOk result (scan.now.many ≡ false) }
{
    if scan.not_outgoing {
        return Err(PlanRefusal::NotOutgoing);
    }
    let once = if scan.many {
        groups.again().none_twice()
    } else {
        none_twice(scan.list.as_slice())
    };
    if !once {
        return Err(PlanRefusal::RepeatedGroup);
    }
    if plan.home(pair.code) == pair.exchange {
        return Err(PlanRefusal::RouteAtHome);
    }
    if scan.many {
        return Err(PlanRefusal::TooMany);
    }
    Ok(())
}

/// Why a route is refused to a declared pair.
fn route_row<A: Allocator>(
    plan: &Plan<A>,
    pair: &Pair,
    groups: &Words<'_>,
    scan: &RouteScan,
) -> Result<(), PlanRefusal>
    requires scan { IsScanOf plan.now (Some pair.now) groups.now scan.now }
    ensures gives { result_err result
        ≡ first_true (route_plan_refusals plan.now (Some pair.now) groups.now) }
    ensures few { OnOk result (scan.now.many ≡ false) }
    ensures fresh { OnOk result (has_route plan.now pair.now.exchange pair.now.code ≡ false) }
{
    if plan.has_route(pair) {
        return Err(PlanRefusal::Duplicate);
    }
    if scan.unknown {
        return Err(PlanRefusal::Unknown);
    }
    route_groups(plan, pair, groups, scan)
}

/// The pair and the groups of a new route, or why it is refused.
pub(crate) fn route_entry<A: Allocator>(
    plan: &Plan<A>,
    exchange: &[u8],
    code: &[u8],
    groups: Words<'_>,
) -> Result<(Pair, GroupList), PlanRefusal>
    ensures err { IfErr result
        (λ e. first_true (route_refusals plan.now exchange.now code.now groups.entry) ≡ Some e) }
    ensures ok { OnOk result
        (first_true (route_refusals plan.now exchange.now code.now groups.entry) ≡ None) }
    ensures pair { IfOk result (λ e. e.0 ≡ record {
      exchange = exchange_at plan.now exchange.now;
      code = code_at plan.now code.now;
    }) }
    ensures groups { IfOk result (λ e. e.1.items ≡ map (group_at plan.now) groups.entry) }
    ensures fresh { IfOk result (λ e. has_route plan.now e.0.exchange e.0.code ≡ false) }
{
    let pair = plan.pair_named(exchange, code);
    let scan = scan(plan, &pair, groups.again());
    route_words(exchange, code, &groups, scan.bad)?;
    let Some(pair) = pair else {
        return Err(PlanRefusal::Unknown);
    };
    route_row(plan, &pair, &groups, &scan)?;
    Ok((pair, scan.list))
}
