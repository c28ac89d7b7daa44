// The groups that a code keeps.
ghost use Rattle.std.specs.Prelude.{◌≡◌, ◌<◌, ℕ, Option, length, slice_get, IfOk, OnOk};
ghost use Rattle.std.specs.List.{flat_map, fold};
ghost use Rattle.tx_plan.specs.Routes.{route_list};
ghost use Rattle.tx_mend.specs.KeptRanks.{list_with, rank_keeping, put_back, choice_at, choices};
ghost use Rattle.tx_mend.specs.inner.CodeRanks.{rank_list};

use crate::across::stays;
use crate::rounds::ranks_after;
use crate::serving::all_ranked;
use crate::task::Task;
use crate::trial::Trial;
use std::alloc::Allocator;
use tx_plan::{CodeId, ExchangeId, GroupId, Plan};
use tx_text::NoMemory;

/// How many groups a list has at most.
const CHOICES: usize = 16;

/// The least ranks by routes that keep a group in the list of an exchange, and all that stay by
/// these ranks.
fn tried_ranks<A: Allocator + Copy>(
    alloc: A,
    task: &Task<'_, A>,
    code: CodeId,
    exchange: ExchangeId,
    group: GroupId,
    ranks: &[Option<u8>],
) -> Result<Vec<Option<u8>, A>, NoMemory>
    requires { length ranks.now ≡ length task.now.plan.now.exchanges }
    ensures { IfOk result (λ tried. (of : ℕ → Option ℕ) → ranks.now ≡ rank_list task.now.plan.now of
        → tried.items ≡ rank_list task.now.plan.now (rank_keeping task.now.plan.now code
        task.now.limits.limit task.now.limits.spare
        (list_with task.now.plan.now code of exchange group))) }
{
    let plan = task.plan;
    plan.rules();
    let trial = Trial {
        plan,
        seizable: task.seizable,
        code,
        spare: task.limits.spare,
        ranks,
        exchange,
        group,
    };
    ranks_after(alloc, &trial, plan.home(code), task.limits.limit + 1)
}

/// Puts a group back into the list of an exchange, if all origins can then be ranked.
fn put_back<A: Allocator + Copy>(
    alloc: A,
    task: &Task<'_, A>,
    code: CodeId,
    exchange: ExchangeId,
    group: GroupId,
    ranks: &mut Vec<Option<u8>, A>,
) -> Result<(), NoMemory>
    requires long { length ranks.old.items ≡ length task.now.plan.now.exchanges }
    requires exchange { exchange < length task.now.plan.now.exchanges }
    ensures { OnOk result ((of : ℕ → Option ℕ) → ranks.old.items ≡ rank_list task.now.plan.now of
        → ranks.new.items ≡ rank_list task.now.plan.now (put_back task.now.plan.now code
        task.now.limits.limit task.now.limits.spare of (exchange, group))) }
{
    if stays(task.plan, ranks, exchange, group) {
        return Ok(());
    }
    let tried = tried_ranks(alloc, task, code, exchange, group, ranks)?;
    if all_ranked(task.plan, task.origins, code, &tried) {
        *ranks = tried;
    }
    Ok(())
}

/// The group at a place in the list of an exchange.
fn choice_of<A: Allocator>(
    plan: &Plan<A>,
    exchange: ExchangeId,
    code: CodeId,
    choice: usize,
) -> Option<GroupId>
    ensures { result ≡ slice_get (route_list plan.now exchange code) choice }
{
    plan.list(exchange, code).get(choice).copied()
}

/// Puts back the group at a place in the list of an exchange, where that can be.
fn put_back_at<A: Allocator + Copy>(
    alloc: A,
    task: &Task<'_, A>,
    code: CodeId,
    exchange: ExchangeId,
    choice: usize,
    ranks: &mut Vec<Option<u8>, A>,
) -> Result<(), NoMemory>
    requires { length ranks.old.items ≡ length task.now.plan.now.exchanges }
    ensures { OnOk result ((of : ℕ → Option ℕ) → ranks.old.items ≡ rank_list task.now.plan.now of
        → ranks.new.items ≡ rank_list task.now.plan.now (fold (put_back task.now.plan.now code
        task.now.limits.limit task.now.limits.spare) of
        (choice_at task.now.plan.now code choice exchange))) }
{
    task.plan.rules();
    match choice_of(task.plan, exchange, code, choice) {
        Some(group) => put_back(alloc, task, code, exchange, group, ranks),
        None => Ok(()),
    }
}

/// Puts back, of the list of each of these exchanges in turn, the group at one place in it, where
/// that can be.
fn put_back_choice<A: Allocator + Copy>(
    alloc: A,
    task: &Task<'_, A>,
    code: CodeId,
    exchanges: &[ExchangeId],
    choice: usize,
    ranks: &mut Vec<Option<u8>, A>,
) -> Result<(), NoMemory>
    requires { length ranks.old.items ≡ length task.now.plan.now.exchanges }
    ensures { OnOk result ((of : ℕ → Option ℕ) → ranks.old.items ≡ rank_list task.now.plan.now of
        → ranks.new.items ≡ rank_list task.now.plan.now (fold (put_back task.now.plan.now code
        task.now.limits.limit task.now.limits.spare) of
        (flat_map (choice_at task.now.plan.now code choice) exchanges.now))) }
{
    for exchange in exchanges {
        put_back_at(alloc, task, code, *exchange, choice, ranks)?;
    }
    Ok(())
}

/// Puts back each group of the lists of these exchanges that can be: all first choices, then all
/// second ones, and so on.
pub fn put_back_all<A: Allocator + Copy>(
    alloc: A,
    task: &Task<'_, A>,
    code: CodeId,
    exchanges: &[ExchangeId],
    ranks: &mut Vec<Option<u8>, A>,
) -> Result<(), NoMemory>
    requires { length ranks.old.items ≡ length task.now.plan.now.exchanges }
    ensures { OnOk result ((of : ℕ → Option ℕ) → ranks.old.items ≡ rank_list task.now.plan.now of
        → ranks.new.items ≡ rank_list task.now.plan.now (fold (put_back task.now.plan.now code
        task.now.limits.limit task.now.limits.spare) of
        (choices task.now.plan.now code exchanges.now))) }
{
    for choice in 0..CHOICES {
        put_back_choice(alloc, task, code, exchanges, choice, ranks)?;
    }
    Ok(())
}
