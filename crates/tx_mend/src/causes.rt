// What cannot be served, why, and where groups are missing.
ghost use Rattle.std.specs.Prelude.{◌≡◌, ◌<◌, ◌++◌, map, length, IfOk, OnOk};
ghost use Rattle.std.specs.Option.{option_copied};
ghost use Rattle.tx_rank.specs.Judged.{AreOrigins};
ghost use Rattle.tx_mend.specs.LeastRanks.{indexes, outgoing, least_rank};
ghost use Rattle.tx_mend.specs.Unserved.{groups_on, groups_near, near_rank, unlimited_rank, cause_of, unserved_for, unserved, lacks_groups, lacking_at, missing_for, missing};
ghost use Rattle.tx_mend.specs.inner.CodeRanks.{rank_list, code_ranks};

use crate::cause::{Cause, Missing, Unserved};
use crate::code_ranks::{CodeRanks, least_ranks, ranks_at};
use crate::outgoing::{Outgoing, groups_at};
use crate::rules::count_on;
use crate::serving::{all_ranked, is_unranked};
use crate::task::Task;
use std::alloc::Allocator;
use tx_plan::{CodeId, ExchangeId, Limits, Plan};
use tx_text::NoMemory;

/// Rounds that rank whatever can be ranked: there are at most 256 exchanges.
const UNLIMITED: u8 = 255;

/// The least ranks of the exchanges of a plan for a code, within the limit and without one, those up
/// to the limit, and the groups that each exchange may seize.
#[derive(Drop)]
struct Reach<'a, A: Allocator> {
    plan: &'a Plan<A>,
    seizable: &'a [Outgoing<A>],
    limits: Limits,
    code: CodeId,
    least: &'a [Option<u8>],
    near: &'a [Option<u8>],
    unlimited: &'a [Option<u8>],
    ghost groups: { seizable.now ≡ map (outgoing plan.now) (indexes (length plan.now.exchanges)) },
    ghost wide: { length least.now ≡ length plan.now.exchanges },
    ghost long: { length unlimited.now ≡ length plan.now.exchanges },
    ghost within: { least.now ≡ rank_list plan.now
        (least_rank plan.now code limits.limit limits.spare) },
    ghost below: { near.now ≡ rank_list plan.now
        (near_rank plan.now code limits.limit limits.spare) },
    ghost without: { unlimited.now ≡ rank_list plan.now
        (unlimited_rank plan.now code limits.spare) },
}

/// The least ranks without a limit.
fn unlimited_ranks<A: Allocator + Copy>(
    alloc: A,
    task: &Task<'_, A>,
    code: CodeId,
) -> Result<Vec<Option<u8>, A>, NoMemory>
    ensures { IfOk result (λ ranks. ranks.items ≡ rank_list task.now.plan.now
        (unlimited_rank task.now.plan.now code task.now.limits.spare)) }
{
    least_ranks(alloc, task, code, UNLIMITED)
}

/// The least ranks up to the limit.
fn near_ranks<A: Allocator + Copy>(
    alloc: A,
    task: &Task<'_, A>,
    code: CodeId,
) -> Result<Vec<Option<u8>, A>, NoMemory>
    ensures { IfOk result (λ ranks. ranks.items ≡ rank_list task.now.plan.now
        (near_rank task.now.plan.now code task.now.limits.limit task.now.limits.spare)) }
{
    least_ranks(alloc, task, code, task.limits.limit)
}

/// How many groups lead on from an exchange.
fn groups_on<A: Allocator>(reach: &Reach<'_, A>, exchange: ExchangeId) -> usize
    requires { exchange < length reach.now.plan.now.exchanges }
    ensures { result ≡ groups_on reach.now.plan.now reach.now.code
        reach.now.limits.limit reach.now.limits.spare exchange }
{
    let groups = groups_at(reach.seizable, exchange);
    count_on(reach.plan, reach.least, exchange, groups)
}

/// Why an exchange cannot be served.
fn cause_of<A: Allocator>(reach: &Reach<'_, A>, exchange: ExchangeId) -> Cause
    requires { exchange < length reach.now.plan.now.exchanges }
    ensures { result ≡ cause_of reach.now.plan.now reach.now.code
        reach.now.limits.limit reach.now.limits.spare exchange }
{
    match reach.unlimited[exchange.index()] {
        Some(rank) => Cause::Rank(rank),
        None => Cause::Groups(groups_on(reach, exchange)),
    }
}

/// Appends each origin for the code that cannot be served.
fn add_unserved<A: Allocator>(
    reach: &Reach<'_, A>,
    origins: &[bool],
    unserved: &mut Vec<Unserved, A>,
) -> Result<(), NoMemory>
    requires { AreOrigins reach.now.plan.now origins.now }
    ensures { OnOk result (unserved.new.items ≡ unserved.old.items
        ++ unserved_for reach.now.plan.now reach.now.limits.limit
        reach.now.limits.spare reach.now.code) }
{
    let code = reach.code;
    for index in 0..reach.plan.exchanges() {
        let exchange = ExchangeId::of(index);
        if is_unranked(reach.plan, origins, code, reach.least, exchange) {
            let cause = cause_of(reach, exchange);
            unserved.push(Unserved {
                code,
                exchange,
                cause,
            })?;
        }
    }
    Ok(())
}

/// How many groups lead from an exchange to those of a rank up to the limit.
fn groups_near<A: Allocator>(reach: &Reach<'_, A>, exchange: ExchangeId) -> usize
    requires { exchange < length reach.now.plan.now.exchanges }
    ensures { result ≡ groups_near reach.now.plan.now reach.now.code
        reach.now.limits.limit reach.now.limits.spare exchange }
{
    let groups = groups_at(reach.seizable, exchange);
    count_on(reach.plan, reach.near, exchange, groups)
}

/// Whether too few groups lead from an exchange to those of a rank up to the limit, but some.
fn lacks_groups<A: Allocator>(reach: &Reach<'_, A>, exchange: ExchangeId) -> bool
    requires { exchange < length reach.now.plan.now.exchanges }
    ensures { result ≡ lacks_groups reach.now.plan.now reach.now.code
        reach.now.limits.limit reach.now.limits.spare exchange }
{
    reach.least[exchange.index()].is_none() && groups_near(reach, exchange) > 0
}

/// Appends each exchange where groups are missing for the code.
fn add_missing<A: Allocator>(
    reach: &Reach<'_, A>,
    missing: &mut Vec<Missing, A>,
) -> Result<(), NoMemory>
    ensures { OnOk result (missing.new.items ≡ missing.old.items
        ++ lacking_at reach.now.plan.now reach.now.limits.limit
        reach.now.limits.spare reach.now.code) }
{
    let code = reach.code;
    let enough = usize::from(reach.limits.spare) + 1;
    for index in 0..reach.plan.exchanges() {
        let exchange = ExchangeId::of(index);
        if lacks_groups(reach, exchange) {
            let groups = enough - groups_near(reach, exchange);
            missing.push(Missing {
                code,
                exchange,
                groups,
            })?;
        }
    }
    Ok(())
}

/// What cannot be served, and where groups are missing.
#[derive(Drop)]
pub struct Lacking<A: Allocator> {
    pub unserved: Vec<Unserved, A>,
    pub missing: Vec<Missing, A>,
}

/// Appends what a code lacks, if an origin for it has no least rank.
fn add_lacking<A: Allocator + Copy>(
    alloc: A,
    task: &Task<'_, A>,
    code: CodeId,
    least: &[Option<u8>],
    lacking: &mut Lacking<A>,
) -> Result<(), NoMemory>
    requires { least.now ≡ rank_list task.now.plan.now (least_rank task.now.plan.now code
        task.now.limits.limit task.now.limits.spare) }
    ensures unserved { OnOk result (lacking.new.unserved.items ≡ lacking.old.unserved.items
        ++ unserved_for task.now.plan.now task.now.limits.limit task.now.limits.spare code) }
    ensures missing { OnOk result (lacking.new.missing.items ≡ lacking.old.missing.items
        ++ missing_for task.now.plan.now task.now.limits.limit task.now.limits.spare code) }
{
    if all_ranked(task.plan, task.origins, code, least) {
        return Ok(());
    }
    let near = near_ranks(alloc, task, code)?;
    let unlimited = unlimited_ranks(alloc, task, code)?;
    let reach = Reach {
        plan: task.plan,
        seizable: task.seizable,
        limits: task.limits,
        code,
        least,
        near: &near,
        unlimited: &unlimited,
    };
    add_unserved(&reach, task.origins, &mut lacking.unserved)?;
    add_missing(&reach, &mut lacking.missing)
}

/// Appends what a code lacks. One that keeps its routes lacks nothing.
fn add_for_code<A: Allocator + Copy>(
    alloc: A,
    task: &Task<'_, A>,
    code: CodeId,
    least: Option<&[Option<u8>]>,
    lacking: &mut Lacking<A>,
) -> Result<(), NoMemory>
    requires code { code < length task.now.plan.now.codes }
    requires least { option_copied least ≡ code_ranks task.now.plan.now
        task.now.limits.limit task.now.limits.spare code }
    ensures unserved { OnOk result (lacking.new.unserved.items ≡ lacking.old.unserved.items
        ++ unserved_for task.now.plan.now task.now.limits.limit task.now.limits.spare code) }
    ensures missing { OnOk result (lacking.new.missing.items ≡ lacking.old.missing.items
        ++ missing_for task.now.plan.now task.now.limits.limit task.now.limits.spare code) }
{
    task.plan.rules();
    match least {
        Some(least) => add_lacking(alloc, task, code, least, lacking),
        None => Ok(()),
    }
}

/// What all codes lack.
pub fn lacking_of<A: Allocator + Copy>(
    alloc: A,
    task: &Task<'_, A>,
    table: &[CodeRanks<A>],
) -> Result<Lacking<A>, NoMemory>
    requires { table.now ≡ map (code_ranks task.now.plan.now
        task.now.limits.limit task.now.limits.spare) (indexes (length task.now.plan.now.codes)) }
    ensures unserved { IfOk result (λ l. l.unserved.items
        ≡ unserved task.now.plan.now task.now.limits.limit task.now.limits.spare) }
    ensures missing { IfOk result (λ l. l.missing.items
        ≡ missing task.now.plan.now task.now.limits.limit task.now.limits.spare) }
{
    let mut lacking = Lacking {
        unserved: Vec::new(alloc),
        missing: Vec::new(alloc),
    };
    for index in 0..task.plan.codes() {
        let code = CodeId::of(index);
        add_for_code(alloc, task, code, ranks_at(table, index), &mut lacking)?;
    }
    Ok(lacking)
}
