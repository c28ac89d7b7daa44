// What the mending of each code goes by.
ghost use Rattle.std.specs.Prelude.{◌≡◌, map, length, option_and_then, slice_get, IfOk};
ghost use Rattle.std.specs.Option.{option_copied};
ghost use Rattle.tx_plan.specs.Plan.{home_of};
ghost use Rattle.tx_mend.specs.LeastRanks.{indexes, ranked_in, can_follow};
ghost use Rattle.tx_mend.specs.inner.CodeRanks.{rank_list, code_ranks, kept_ranks};

use crate::nearest::nearest_first;
use crate::put_back::put_back_all;
use crate::rounds::ranks_after;
use crate::rules::{AnyRoutes, PresentRoutes};
use crate::serving::all_ranked;
use crate::task::Task;
use std::alloc::{Allocator, Global};
use std::marker::Model;
use tx_plan::CodeId;
use tx_text::NoMemory;

/// The ranks of the exchanges for a code, unless the code keeps its routes.
#[derive(Drop)]
pub struct CodeRanks<A: Allocator = Global> {
    kept: bool,
    ranks: Vec<Option<u8>, A>,
}

impl<A: Allocator> Model for CodeRanks<A> {
    ghost use Rattle.std.specs.Prelude.{ℕ, if◌then◌else◌, List, Option, Some, None};

    ghost Value = { Option (List (Option ℕ)) };

    ghost view = { λ c. if c.kept then None else Some c.ranks.items };
}

impl<A: Allocator> CodeRanks<A> {
    /// The ranks, unless the code keeps its routes.
    pub fn ranks(&self) -> Option<&[Option<u8>]>
        ensures { option_copied result ≡ self.now }
    {
        if self.kept { None } else { Some(&self.ranks) }
    }
}

/// Those of the code at an index; none for an index that the table does not have.
pub fn ranks_at<A: Allocator>(table: &[CodeRanks<A>], index: usize) -> Option<&[Option<u8>]>
    ensures { option_copied result ≡ option_and_then (λ r. r) (slice_get table.now index) }
{
    match table.get(index) {
        Some(ranks) => ranks.ranks(),
        None => None,
    }
}

/// The least ranks of one code.
fn ranks_for<A: Allocator + Copy>(
    alloc: A,
    task: &Task<'_, A>,
    code: CodeId,
) -> Result<CodeRanks<A>, NoMemory>
    ensures { IfOk result (λ ranks. ranks ≡ code_ranks task.now.plan.now
        task.now.limits.limit task.now.limits.spare code) }
{
    let plan = task.plan;
    plan.rules();
    let spare = task.limits.spare;
    let rounds = task.limits.limit + 1;
    let home = plan.home(code);
    let by_lists = PresentRoutes { plan, code, spare };
    let present = ranks_after(alloc, &by_lists, home, rounds)?;
    if all_ranked(plan, task.origins, code, &present) {
        return Ok(CodeRanks {
            kept: true,
            ranks: present,
        });
    }
    let least = least_ranks(alloc, task, code, rounds)?;
    Ok(CodeRanks {
        kept: false,
        ranks: least,
    })
}

/// The ranks after so many rounds, whatever the routes.
pub fn least_ranks<A: Allocator + Copy>(
    alloc: A,
    task: &Task<'_, A>,
    code: CodeId,
    rounds: u8,
) -> Result<Vec<Option<u8>, A>, NoMemory>
    ensures { IfOk result (λ ranks. ranks.items ≡ rank_list task.now.plan.now
        (ranked_in (home_of task.now.plan.now code)
        (can_follow task.now.plan.now task.now.limits.spare) rounds)) }
{
    task.plan.rules();
    let by_groups = AnyRoutes {
        plan: task.plan,
        seizable: task.seizable,
        spare: task.limits.spare,
    };
    ranks_after(alloc, &by_groups, task.plan.home(code), rounds)
}

/// The least ranks of each code.
pub fn all_code_ranks<A: Allocator + Copy>(
    alloc: A,
    task: &Task<'_, A>,
) -> Result<Vec<CodeRanks<A>, A>, NoMemory>
    ensures { IfOk result (λ table. table.items ≡ map (code_ranks task.now.plan.now
        task.now.limits.limit task.now.limits.spare) (indexes (length task.now.plan.now.codes))) }
{
    let mut table = Vec::new(alloc);
    for index in 0..task.plan.codes() {
        table.push(ranks_for(alloc, task, CodeId::of(index))?)?;
    }
    Ok(table)
}

/// The kept ranks of one code.
fn kept_for<A: Allocator + Copy>(
    alloc: A,
    task: &Task<'_, A>,
    code: CodeId,
    least: Option<&[Option<u8>]>,
) -> Result<CodeRanks<A>, NoMemory>
    requires { option_copied least ≡ code_ranks task.now.plan.now
        task.now.limits.limit task.now.limits.spare code }
    ensures { IfOk result (λ ranks. ranks ≡ kept_ranks task.now.plan.now
        task.now.limits.limit task.now.limits.spare code) }
{
    match least {
        Some(least) => {
            let nearest = nearest_first(alloc, task.plan, least, task.limits)?;
            let mut ranks = Vec::new(alloc);
            ranks.extend_from_slice(least)?;
            put_back_all(alloc, task, code, &nearest, &mut ranks)?;
            Ok(CodeRanks { kept: false, ranks })
        }
        None => Ok(CodeRanks {
            kept: true,
            ranks: Vec::new(alloc),
        }),
    }
}

/// The kept ranks of each code.
pub fn all_kept_ranks<A: Allocator + Copy>(
    alloc: A,
    task: &Task<'_, A>,
    least: &[CodeRanks<A>],
) -> Result<Vec<CodeRanks<A>, A>, NoMemory>
    requires { least.now ≡ map (code_ranks task.now.plan.now
        task.now.limits.limit task.now.limits.spare) (indexes (length task.now.plan.now.codes)) }
    ensures { IfOk result (λ table. table.items ≡ map (kept_ranks task.now.plan.now
        task.now.limits.limit task.now.limits.spare) (indexes (length task.now.plan.now.codes))) }
{
    let mut table = Vec::new(alloc);
    for index in 0..task.plan.codes() {
        let code = CodeId::of(index);
        table.push(kept_for(alloc, task, code, ranks_at(least, index))?)?;
    }
    Ok(table)
}
