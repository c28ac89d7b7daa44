// Whether entries of two plans are the same.
ghost use Rattle.std.specs.Prelude.{◌≡◌, ◌<◌, ◌↔◌, true, length, slice_get};

use std::alloc::Allocator;
use tx_plan::{CodeId, Direction, ExchangeId, GroupId, Plan};

/// Whether an exchange is the same in two plans.
pub fn is_same_exchange<A: Allocator>(old: &Plan<A>, new: &Plan<A>, exchange: ExchangeId) -> bool
    requires old { exchange < length old.now.exchanges }
    requires new { exchange < length new.now.exchanges }
    ensures { result ≡ true
        ↔ slice_get old.now.exchanges exchange ≡ slice_get new.now.exchanges exchange }
{
    old.exchange_name(exchange) == new.exchange_name(exchange)
}

/// Whether a code is the same in two plans.
pub fn is_same_code<A: Allocator>(old: &Plan<A>, new: &Plan<A>, code: CodeId) -> bool
    requires old { code < length old.now.codes }
    requires new { code < length new.now.codes }
    ensures { result ≡ true ↔ slice_get old.now.codes code ≡ slice_get new.now.codes code }
{
    old.home(code) == new.home(code) && old.code_figures(code) == new.code_figures(code)
}

/// Whether two plans have the same range at an index.
pub fn is_same_range<A: Allocator>(old: &Plan<A>, new: &Plan<A>, index: usize) -> bool
    requires old { index < length old.now.ranges }
    requires new { index < length new.now.ranges }
    ensures { result ≡ true ↔ slice_get old.now.ranges index ≡ slice_get new.now.ranges index }
{
    match (old.range_at(index), new.range_at(index)) {
        (Some(a), Some(b)) => a.code == b.code && a.low == b.low && a.high == b.high,
        _ => false,
    }
}

/// Whether a group is the same in two plans.
pub fn is_same_group<A: Allocator>(old: &Plan<A>, new: &Plan<A>, group: GroupId) -> bool
    requires old { group < length old.now.groups }
    requires new { group < length new.now.groups }
    ensures { result ≡ true ↔ slice_get old.now.groups group ≡ slice_get new.now.groups group }
{
    let (a, b) = old.ends(group);
    let (c, d) = new.ends(group);
    if a != c || b != d {
        return false;
    }
    if !is_same_direction(old.direction(group), new.direction(group)) {
        return false;
    }
    if old.group_count(group) != new.group_count(group) {
        return false;
    }
    old.group_name(group) == new.group_name(group)
}

fn is_same_direction(a: Direction, b: Direction) -> bool
    ensures { result ≡ true ↔ a ≡ b }
{
    a == b
}
