// The worst outage of a plan.
ghost use Rattle.std.specs.Prelude.{◌≡◌, ◌≤◌, option_map, find, slice_get};
ghost use Rattle.std.specs.Option.{option_map_or};
ghost use Rattle.tx_page_change.specs.Numbers.{home_lines, lines_at, is_cut_at, cut_lines_at, lines_cut, most_cut, cuts_off, numbers_of, worst_of};

use crate::counts::range_lines;
use crate::outlook::Outlook;
use std::alloc::Allocator;
use tx_plan::{ExchangeId, Plan};
use tx_risk::{Cut, Outcome};

/// How many lines the range at an index has, if they are at the exchange.
fn lines_of_range_at<A: Allocator>(plan: &Plan<A>, exchange: ExchangeId, index: usize) -> u64
    ensures count { result ≡ option_map_or (home_lines plan.now exchange)
        (slice_get plan.now.ranges index) 0 }
    ensures bound { result ≤ 1000000000 }
{
    match plan.range_at(index) {
        Some(range) if plan.home(range.code) == exchange => range_lines(range),
        _ => 0,
    }
}

/// How many lines an exchange has.
#[tactic(auto, using(tx_join::proofs::Sums::sum_more))]
fn lines_at<A: Allocator>(plan: &Plan<A>, exchange: ExchangeId) -> u64
    ensures count { result ≡ lines_at plan.now exchange }
    ensures few { result ≤ 4096000000000 }
{
    let mut count: u64 = 0;
    for index in 0..plan.ranges() {
        count += lines_of_range_at(plan, exchange, index);
    }
    count
}

/// Whether calls for some code are cut off that start at an exchange.
fn is_cut_at(cuts: &[Cut], exchange: ExchangeId) -> bool
    ensures { result ≡ is_cut_at cuts.now exchange }
{
    cuts.iter().any(|cut| !cut.stray && cut.start == exchange)
}

/// How many lines of an exchange are then cut off.
fn cut_lines_at<A: Allocator>(plan: &Plan<A>, cuts: &[Cut], exchange: ExchangeId) -> u64
    ensures count { result ≡ cut_lines_at plan.now cuts.now exchange }
    ensures few { result ≤ 4096000000000 }
{
    if is_cut_at(cuts, exchange) {
        lines_at(plan, exchange)
    } else {
        0
    }
}

/// How many lines an outage cuts off, from some code.
#[tactic(auto, using(tx_join::proofs::Sums::range_sum_more))]
fn lines_cut<A: Allocator>(plan: &Plan<A>, outcome: &Outcome<A>) -> u64
    ensures { result ≡ lines_cut plan.now outcome.now }
{
    let mut count: u64 = 0;
    for index in 0..plan.exchanges() {
        count += cut_lines_at(plan, &outcome.cuts, ExchangeId::of(index));
    }
    count
}

/// How many lines the worst of some outages cuts off.
pub(crate) fn most_cut<A: Allocator>(plan: &Plan<A>, outcomes: &[Outcome<A>]) -> u64
    ensures { result ≡ most_cut plan.now outcomes.now }
{
    let mut most: u64 = 0;
    for i in 0..outcomes.len() {
        most = most.max(lines_cut(plan, &outcomes[i]));
    }
    most
}

/// Whether an outage cuts off so many lines, and some.
fn cuts_off<A: Allocator>(plan: &Plan<A>, lines: u64, outcome: &Outcome<A>) -> bool
    ensures { result ≡ cuts_off plan.now lines outcome.now }
{
    lines > 0 && lines_cut(plan, outcome) == lines
}

/// The first outage of a plan that cuts off so many lines, and some.
fn first_of<'a, A: Allocator>(outlook: &Outlook<'a, A>, lines: u64) -> Option<&'a Outcome<A>>
    ensures { option_map (λ o. o.now) result
        ≡ find (cuts_off outlook.now.plan.now lines) outlook.now.outcomes.now }
{
    let (plan, outcomes) = (outlook.plan, outlook.outcomes);
    outcomes
        .iter()
        .find(|outcome| cuts_off(plan, lines, outcome))
}

/// The worst outage of a plan, of which these are the lines that it cuts off.
pub fn worst_of<'a, A: Allocator>(
    outlook: &Outlook<'a, A>,
    lines: Option<u64>,
) -> Option<&'a Outcome<A>>
    requires { lines ≡ (numbers_of outlook.now).lines }
    ensures { option_map (λ o. o.now) result ≡ worst_of outlook.now }
{
    match lines {
        Some(lines) => first_of(outlook, lines),
        None => None,
    }
}
