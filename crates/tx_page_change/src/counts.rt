// How much a plan has.
ghost use Rattle.std.specs.Prelude.{◌≡◌, ◌<◌, ◌≤◌, slice_get};
ghost use Rattle.std.specs.Option.{option_map_or};
ghost use Rattle.std.specs.Str.Parse.{digits_value};
ghost use Rattle.tx_page_change.specs.Counts.{circuits_in, range_lines, code_lines, lines_of, lines_in, origins_in};

use std::alloc::Allocator;
use tx_plan::{CodeId, ExchangeId, GroupId, LineRange, National, Plan};

/// The value of a national number.
fn value_of(number: &National) -> u64
    ensures value { result ≡ digits_value 10 number.now }
    ensures bound { result < 1000000000 }
{
    let figures = number.bytes();
    let mut value: u64 = 0;
    for figure in figures {
        value = value * 10 + u64::from(*figure - b'0');
    }
    value
}

/// How many lines a range has.
pub(crate) fn range_lines(range: LineRange) -> u64
    ensures count { result ≡ range_lines range }
    ensures bound { result ≤ 1000000000 }
{
    value_of(&range.high).saturating_sub(value_of(&range.low)) + 1
}

/// How many lines the range at an index has, if it is one of the code.
fn lines_at<A: Allocator>(plan: &Plan<A>, code: CodeId, index: usize) -> u64
    ensures count { result ≡ option_map_or (code_lines code) (slice_get plan.now.ranges index) 0 }
    ensures bound { result ≤ 1000000000 }
{
    match plan.range_at(index) {
        Some(range) if range.code == code => range_lines(range),
        _ => 0,
    }
}

/// How many lines a code has.
#[tactic(auto, using(tx_join::proofs::Sums::sum_more))]
pub fn lines_of<A: Allocator>(plan: &Plan<A>, code: CodeId) -> u64
    ensures { result ≡ lines_of plan.now code }
{
    let mut count: u64 = 0;
    for index in 0..plan.ranges() {
        count += lines_at(plan, code, index);
    }
    count
}

/// How many lines the range at an index has.
fn lines_of_range<A: Allocator>(plan: &Plan<A>, index: usize) -> u64
    ensures count { result ≡ option_map_or range_lines (slice_get plan.now.ranges index) 0 }
    ensures bound { result ≤ 1000000000 }
{
    match plan.range_at(index) {
        Some(range) => range_lines(range),
        None => 0,
    }
}

/// How many lines a plan has.
#[tactic(auto, using(tx_join::proofs::Sums::sum_more))]
pub fn count_lines<A: Allocator>(plan: &Plan<A>) -> u64
    ensures { result ≡ lines_in plan.now }
{
    let mut count: u64 = 0;
    for index in 0..plan.ranges() {
        count += lines_of_range(plan, index);
    }
    count
}

/// At how many exchanges calls start.
#[tactic(auto, using(tx_join::proofs::Sums::count_more, tx_join::proofs::Sums::count_few))]
pub fn count_origins<A: Allocator>(plan: &Plan<A>) -> u64
    ensures { result ≡ origins_in plan.now }
{
    let mut count: u64 = 0;
    for index in 0..plan.exchanges() {
        if plan.is_origin(ExchangeId::of(index)) {
            count += 1;
        }
    }
    count
}

/// How many circuits a plan has.
#[tactic(auto, using(tx_join::proofs::Sums::range_sum_more))]
pub fn count_circuits<A: Allocator>(plan: &Plan<A>) -> u64
    ensures { result ≡ circuits_in plan.now }
{
    let mut count: u64 = 0;
    for index in 0..plan.groups() {
        count += u64::from(plan.group_count(GroupId::of(index)));
    }
    count
}
