// What two plans know by the same names.
ghost use Rattle.std.specs.Prelude.{◌≡◌, length, map, IfOk};
ghost use Rattle.tx_plan.specs.Plan.{Plan as PlanNow};
ghost use Rattle.tx_plan.specs.Routes.{route_list};
ghost use Rattle.tx_plan.specs.Declaring.{has_exchange, has_code, has_group};
ghost use Rattle.tx_join.specs.Joined.{exchange_in, code_in, group_in, has_both, circuits_named};
ghost use Rattle.tx_join.specs.inner.Taken.{groups_in};

use std::alloc::Allocator;
use tx_plan::{CodeId, ExchangeId, GroupId, GroupList, Plan};
use tx_text::NoMemory;

/// The exchange of another plan that has the name of one of this plan; the first where there is
/// none.
pub(crate) fn exchange_in<A: Allocator>(
    plan: &Plan<A>,
    from: &Plan<A>,
    exchange: ExchangeId,
) -> ExchangeId
    ensures { result ≡ exchange_in plan.now from.now exchange }
{
    match plan.exchange_named(from.exchange_name(exchange)) {
        Some(exchange) => exchange,
        None => ExchangeId::of(0),
    }
}

/// The same of a code.
pub(crate) fn code_in<A: Allocator>(plan: &Plan<A>, from: &Plan<A>, code: CodeId) -> CodeId
    ensures { result ≡ code_in plan.now from.now code }
{
    match plan.code_named(from.code_figures(code)) {
        Some(code) => code,
        None => CodeId::of(0),
    }
}

/// The same of a group.
pub(crate) fn group_in<A: Allocator>(plan: &Plan<A>, from: &Plan<A>, group: GroupId) -> GroupId
    ensures { result ≡ group_in plan.now from.now group }
{
    match plan.group_named(from.group_name(group)) {
        Some(group) => group,
        None => GroupId::of(0),
    }
}

/// For each group of a plan, that of another plan which has its name.
pub(crate) fn groups_in<A: Allocator + Copy>(
    alloc: A,
    plan: &Plan<A>,
    from: &Plan<A>,
) -> Result<Vec<GroupId, A>, NoMemory>
    ensures { IfOk result (λ groups. groups.items ≡ groups_in plan.now from.now) }
{
    let mut groups = Vec::with_capacity(alloc, from.groups())?;
    for index in 0..from.groups() {
        groups.push_reserved(group_in(plan, from, GroupId::of(index)));
    }
    Ok(groups)
}

/// The list of an exchange for a code, as groups of another plan: for each group of the plan, the
/// one there.
pub(crate) fn list_in<A: Allocator>(
    groups: &[GroupId],
    from: &Plan<A>,
    exchange: ExchangeId,
    code: CodeId,
) -> GroupList
    requires { length groups.now ≡ length from.now.groups }
    ensures { (plan : PlanNow) → groups.now ≡ groups_in plan from.now
        → result.items ≡ map (group_in plan from.now) (route_list from.now exchange code) }
{
    let mut list = GroupList::new();
    let tried = from.list(exchange, code);
    for group in tried {
        list.push(groups[group.index()]);
    }
    list
}

/// Whether a plan has an exchange of this name.
pub(crate) fn has_exchange<A: Allocator>(plan: &Plan<A>, name: &[u8]) -> bool
    ensures { result ≡ has_exchange plan.now name.now }
{
    plan.exchange_named(name).is_some()
}

/// Whether it has a code of these figures.
pub(crate) fn has_code<A: Allocator>(plan: &Plan<A>, figures: &[u8]) -> bool
    ensures { result ≡ has_code plan.now figures.now }
{
    plan.code_named(figures).is_some()
}

/// Whether it has a group of this name.
pub(crate) fn has_group<A: Allocator>(plan: &Plan<A>, name: &[u8]) -> bool
    ensures { result ≡ has_group plan.now name.now }
{
    plan.group_named(name).is_some()
}

/// Whether a plan has an exchange and a code of another one.
pub fn has_both<A: Allocator>(
    plan: &Plan<A>,
    from: &Plan<A>,
    exchange: ExchangeId,
    code: CodeId,
) -> bool
    ensures { result ≡ has_both plan.now from.now exchange code }
{
    has_exchange(plan, from.exchange_name(exchange)) && has_code(plan, from.code_figures(code))
}

/// How many circuits the group of a name has; none where there is no such group.
pub(crate) fn circuits_named<A: Allocator>(plan: &Plan<A>, name: &[u8]) -> u32
    ensures { result ≡ circuits_named plan.now name.now }
{
    match plan.group_named(name) {
        Some(group) => plan.group_count(group),
        None => 0,
    }
}
