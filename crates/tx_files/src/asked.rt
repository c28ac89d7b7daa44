// What is asked of a plan by names: an exchange, a code, what is passed, and groups.
ghost use Rattle.std.specs.Prelude.{◌≡◌, IfOk, option_map};
ghost use Rattle.std.specs.Result.{result_map_both};
ghost use Rattle.tx_files.specs.Names.{names_in};
ghost use Rattle.tx_files.specs.Asked.{groups_named, groups_in, asked_of, through_named, passed_of, IsAnswered, IsPassed};

use crate::{CommandFault, Named, name_at};
use std::alloc::Allocator;
use tx_plan::{CodeId, ExchangeId, GroupId, Plan};
use tx_text::NoMemory;
use tx_trace::Through;

/// The exchange of a name, the code of some figures, and the groups that a word names, with a comma
/// between two.
pub fn asked_of<A: Allocator + Copy>(
    alloc: A,
    plan: &Plan<A>,
    exchange: &[u8],
    code: &[u8],
    groups: Option<&str>,
) -> Result<(ExchangeId, CodeId, Vec<GroupId, A>), CommandFault>
    ensures { IsAnswered
        (asked_of plan.now exchange.now code.now (option_map (λ w. w.now) groups.entry)) result }
{
    let Some(from) = plan.exchange_named(exchange) else {
        return Err(CommandFault::missing(alloc, plan, Named::Exchange, 0, exchange));
    };
    let Some(to) = plan.code_named(code) else {
        return Err(CommandFault::missing(alloc, plan, Named::Code, 0, code));
    };
    match groups_in(alloc, plan, groups)? {
        Ok(groups) => Ok((from, to, groups)),
        Err(place) => {
            let name = name_at(groups, place);
            Err(CommandFault::missing(alloc, plan, Named::Group, place, name))
        }
    }
}

/// The exchange of a name, or else the group of it, and the groups that a word names.
pub fn passed_of<A: Allocator + Copy>(
    alloc: A,
    plan: &Plan<A>,
    name: &[u8],
    groups: Option<&str>,
) -> Result<(Through, Vec<GroupId, A>), CommandFault>
    ensures { IsPassed
        (passed_of plan.now name.now (option_map (λ w. w.now) groups.entry)) result }
{
    let Some(through) = through_named(plan, name) else {
        return Err(CommandFault::missing(alloc, plan, Named::ExchangeOrGroup, 0, name));
    };
    match groups_in(alloc, plan, groups)? {
        Ok(groups) => Ok((through, groups)),
        Err(place) => {
            let name = name_at(groups, place);
            Err(CommandFault::missing(alloc, plan, Named::Group, place, name))
        }
    }
}

/// The exchange of a name, or else the group of it.
fn through_named<A: Allocator>(plan: &Plan<A>, name: &[u8]) -> Option<Through>
    ensures { result ≡ through_named plan.now name.now }
{
    match (plan.exchange_named(name), plan.group_named(name)) {
        (Some(exchange), _) => Some(Through::Exchange(exchange)),
        (None, Some(group)) => Some(Through::Group(group)),
        (None, None) => None,
    }
}

/// The groups that a word names, or the place of the first name of which the plan has none, from 0.
/// None without a word.
fn groups_in<A: Allocator + Copy>(
    alloc: A,
    plan: &Plan<A>,
    word: Option<&str>,
) -> Result<Result<Vec<GroupId, A>, usize>, NoMemory>
    ensures { IfOk result (λ named. result_map_both (λ gs. gs.items) (λ place. place) named
        ≡ groups_in plan.now (option_map (λ w. w.now) word.entry)) }
{
    match word {
        Some(word) => groups_named(alloc, plan, word),
        None => Ok(Ok(Vec::new(alloc))),
    }
}

fn groups_named<A: Allocator + Copy>(
    alloc: A,
    plan: &Plan<A>,
    word: &str,
) -> Result<Result<Vec<GroupId, A>, usize>, NoMemory>
    ensures { IfOk result (λ named. result_map_both (λ gs. gs.items) (λ place. place) named
        ≡ groups_named plan.now (names_in word.now)) }
{
    let mut groups = Vec::new(alloc);
    for name in word.split(',') {
        match plan.group_named(name.as_bytes()) {
            Some(group) => groups.push(group)?,
            None => return Ok(Err(groups.len())),
        }
    }
    Ok(Ok(groups))
}
