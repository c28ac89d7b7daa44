// The list of an exchange.
ghost use Rattle.std.specs.Prelude.{◌≡◌, ◌<◌, ℕ, Option, length, filter};
ghost use Rattle.tx_plan.specs.Routes.{route_list};
ghost use Rattle.tx_mend.specs.LeastRanks.{outgoing};
ghost use Rattle.tx_mend.specs.KeptRanks.{leads_below};
ghost use Rattle.tx_mend.specs.Lists.{put, filled, leads_to, groups_below, list_by, full_list};
ghost use Rattle.tx_mend.specs.inner.CodeRanks.{rank_list};

use crate::across::{leads_below, leads_to};
use crate::basis::Basis;
use crate::code_ranks::ranks_at;
use crate::outgoing::groups_at;
use std::alloc::Allocator;
use tx_plan::{CodeId, ExchangeId, GroupId, GroupList, Limits, Plan};

/// Appends a group, unless it is there already or there are more than `spare`.
fn put(list: &mut GroupList, group: GroupId, limits: Limits)
    ensures { list.new.items ≡ put limits.spare list.old.items group }
{
    if list.len() > usize::from(limits.spare) || list.as_slice().contains(&group) {
        return;
    }
    list.push(group);
}

/// Appends groups that lead to one rank, in order of declaration, until there are more than
/// `spare`.
fn fill_at<A: Allocator>(
    plan: &Plan<A>,
    seizable: &[GroupId],
    ranks: &[Option<u8>],
    exchange: ExchangeId,
    rank: u8,
    limits: Limits,
    list: &mut GroupList,
)
    requires long { length ranks.now ≡ length plan.now.exchanges }
    ensures { (of : ℕ → Option ℕ) → ranks.now ≡ rank_list plan.now of → list.new.items
        ≡ filled limits.spare list.old.items
        (filter (λ g. leads_to plan.now of rank exchange g) seizable.now) }
{
    for group in seizable {
        if leads_to(plan, ranks, exchange, rank, *group) {
            put(list, *group, limits);
        }
    }
}

/// Appends groups that lead below a rank, by rank and then in order of declaration, until there are
/// more than `spare`.
fn fill<A: Allocator>(
    plan: &Plan<A>,
    seizable: &[GroupId],
    ranks: &[Option<u8>],
    exchange: ExchangeId,
    rank: u8,
    limits: Limits,
    list: &mut GroupList,
)
    requires seizable { seizable.now ≡ outgoing plan.now exchange }
    requires long { length ranks.now ≡ length plan.now.exchanges }
    ensures { (of : ℕ → Option ℕ) → ranks.now ≡ rank_list plan.now of → list.new.items
        ≡ filled limits.spare list.old.items (groups_below plan.now of rank exchange) }
{
    for lower in 0..rank {
        if list.len() > usize::from(limits.spare) {
            return;
        }
        fill_at(plan, seizable, ranks, exchange, lower, limits, list);
    }
}

/// The groups of the present list that lead below a rank.
fn kept_below<A: Allocator>(
    plan: &Plan<A>,
    ranks: &[Option<u8>],
    code: CodeId,
    exchange: ExchangeId,
    rank: u8,
) -> GroupList
    requires { length ranks.now ≡ length plan.now.exchanges }
    ensures { (of : ℕ → Option ℕ) → ranks.now ≡ rank_list plan.now of
        → result.items ≡ filter (λ g. leads_below plan.now of rank exchange g)
        (route_list plan.now exchange code) }
{
    let mut list = GroupList::new();
    let present = plan.list(exchange, code);
    for group in present {
        if leads_below(plan, ranks, exchange, rank, *group) {
            list.push(*group);
        }
    }
    list
}

/// The list of an exchange by ranks.
fn list_by_ranks<A: Allocator>(
    plan: &Plan<A>,
    seizable: &[GroupId],
    ranks: &[Option<u8>],
    code: CodeId,
    exchange: ExchangeId,
    limits: Limits,
) -> GroupList
    requires seizable { seizable.now ≡ outgoing plan.now exchange }
    requires long { length ranks.now ≡ length plan.now.exchanges }
    requires exchange { exchange < length plan.now.exchanges }
    ensures { (of : ℕ → Option ℕ) → ranks.now ≡ rank_list plan.now of
        → result.items ≡ list_by plan.now of code limits.spare exchange }
{
    match ranks[exchange.index()] {
        Some(rank) => {
            let mut list = kept_below(plan, ranks, code, exchange, rank);
            fill(plan, seizable, ranks, exchange, rank, limits, &mut list);
            list
        }
        None => plan.group_list(exchange, code),
    }
}

/// The full list of an exchange for a code.
pub fn full_list<A: Allocator>(
    basis: &Basis<'_, A>,
    code: CodeId,
    exchange: ExchangeId,
) -> GroupList
    requires code { code < length basis.now.plan.now.codes }
    requires exchange { exchange < length basis.now.plan.now.exchanges }
    ensures { result.items ≡ full_list basis.now.plan.now
        basis.now.limits.limit basis.now.limits.spare code exchange }
{
    match ranks_at(basis.table, code.index()) {
        None => basis.plan.group_list(exchange, code),
        Some(ranks) => list_by_ranks(
            basis.plan,
            groups_at(basis.seizable, exchange),
            ranks,
            code,
            exchange,
            basis.limits,
        ),
    }
}
