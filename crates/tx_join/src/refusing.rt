// What of two plans refuses a joined network.
ghost use Rattle.std.specs.Prelude.{◌≡◌, length, find};
ghost use Rattle.std.specs.List.{range_with_len};
ghost use Rattle.tx_join.specs.Joined.{joined_exchanges, joined_network};
ghost use Rattle.tx_join.specs.Refusals.{is_same_exchange, is_same_direction, is_same_group, has_other_home, has_other_group, has_too_many, join_refusal};

use crate::naming::{has_code, has_exchange, has_group};
use crate::refusal::JoinRefusal;
use std::alloc::Allocator;
use tx_plan::{CodeId, Direction, ExchangeId, GroupId, Plan};

/// The first refusal of a joined network.
pub(crate) fn refusal_of<A: Allocator>(old: &Plan<A>, new: &Plan<A>) -> Option<JoinRefusal>
    ensures { result ≡ join_refusal old.now new.now }
{
    if let Some(code) = other_home(old, new) {
        return Some(JoinRefusal::OtherHome(code));
    }
    if let Some(group) = other_group(old, new) {
        return Some(JoinRefusal::OtherGroup(group));
    }
    if has_too_many(old, new) {
        return Some(JoinRefusal::TooMany);
    }
    None
}

/// The first code of the new plan that has another home in the old one.
fn other_home<A: Allocator>(old: &Plan<A>, new: &Plan<A>) -> Option<CodeId>
    ensures { result
        ≡ find (has_other_home old.now new.now) (range_with_len 0 (length new.now.codes)) }
{
    for index in 0..new.codes() {
        let code = CodeId::of(index);
        if has_other_home(old, new, code) {
            return Some(code);
        }
    }
    None
}

/// Whether a code of the new plan has another home in the old one.
fn has_other_home<A: Allocator>(old: &Plan<A>, new: &Plan<A>, code: CodeId) -> bool
    ensures { result ≡ has_other_home old.now new.now code }
{
    match old.code_named(new.code_figures(code)) {
        Some(known) => !is_same_exchange(old, new, old.home(known), new.home(code)),
        None => false,
    }
}

/// The first group of the new plan that is another one in the old plan.
fn other_group<A: Allocator>(old: &Plan<A>, new: &Plan<A>) -> Option<GroupId>
    ensures { result
        ≡ find (has_other_group old.now new.now) (range_with_len 0 (length new.now.groups)) }
{
    for index in 0..new.groups() {
        let group = GroupId::of(index);
        if has_other_group(old, new, group) {
            return Some(group);
        }
    }
    None
}

/// Whether a group of the new plan is another one in the old plan.
fn has_other_group<A: Allocator>(old: &Plan<A>, new: &Plan<A>, group: GroupId) -> bool
    ensures { result ≡ has_other_group old.now new.now group }
{
    match old.group_named(new.group_name(group)) {
        Some(known) => !is_same_group(old, new, known, group),
        None => false,
    }
}

/// Whether two groups have the same ends and the same direction.
fn is_same_group<A: Allocator>(old: &Plan<A>, new: &Plan<A>, known: GroupId, group: GroupId) -> bool
    ensures { result ≡ is_same_group old.now new.now known group }
{
    let (a, b) = old.ends(known);
    let (c, d) = new.ends(group);
    is_same_exchange(old, new, a, c)
        && is_same_exchange(old, new, b, d)
        && is_same_direction(old.direction(known), new.direction(group))
}

/// Whether two exchanges have the same name.
fn is_same_exchange<A: Allocator>(
    old: &Plan<A>,
    new: &Plan<A>,
    known: ExchangeId,
    exchange: ExchangeId,
) -> bool
    ensures { result ≡ is_same_exchange old.now new.now known exchange }
{
    old.exchange_name(known) == new.exchange_name(exchange)
}

fn is_same_direction(known: Direction, direction: Direction) -> bool
    ensures { result ≡ is_same_direction known direction }
{
    known == direction
}

/// Whether together the plans have too many exchanges, codes or groups for a plan.
fn has_too_many<A: Allocator>(old: &Plan<A>, new: &Plan<A>) -> bool
    ensures { result ≡ has_too_many (joined_network old.now new.now) }
{
    exchanges_of_both(old, new) > 256
        || codes_of_both(old, new) > 1100
        || groups_of_both(old, new) > 4096
}

/// How many exchanges the plans have together.
fn exchanges_of_both<A: Allocator>(old: &Plan<A>, new: &Plan<A>) -> usize
    ensures { result ≡ length (joined_exchanges old.now new.now) }
{
    let mut count = old.exchanges();
    for index in 0..new.exchanges() {
        let name = new.exchange_name(ExchangeId::of(index));
        if !has_exchange(old, name) {
            count += 1;
        }
    }
    count
}

/// How many codes.
fn codes_of_both<A: Allocator>(old: &Plan<A>, new: &Plan<A>) -> usize
    ensures { result ≡ length (joined_network old.now new.now).codes }
{
    let mut count = old.codes();
    for index in 0..new.codes() {
        let figures = new.code_figures(CodeId::of(index));
        if !has_code(old, figures) {
            count += 1;
        }
    }
    count
}

/// How many groups.
fn groups_of_both<A: Allocator>(old: &Plan<A>, new: &Plan<A>) -> usize
    ensures { result ≡ length (joined_network old.now new.now).groups }
{
    let mut count = old.groups();
    for index in 0..new.groups() {
        let name = new.group_name(GroupId::of(index));
        if !has_group(old, name) {
            count += 1;
        }
    }
    count
}
