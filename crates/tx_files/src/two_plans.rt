// The two plans of a change or an order, and both over their joined network; and a plan with an old
// one.
ghost use Rattle.std.specs.Prelude.{◌≡◌, IfOk, IfErr};
ghost use Rattle.tx_text.specs.Calls.{CallsAtMost, source_calls};
ghost use Rattle.tx_text.specs.Ends.{input};
ghost use Rattle.tx_files.specs.declared.two_plans.Which.TheVariants.{This};
ghost use Rattle.tx_files.specs.TwoPlans.{IsSaid, ReadsWhole, join_stop, IsNoJoinOf, IsJoin, AreJoined, ReadsPlans, HavePlansRisks, ReadsPlansWithRisks, AreSaid, ReadsWithOld};

use crate::fault::CommandFault;
use crate::reading::read_risks_if;
use std::alloc::{Allocator, Global};
use tx_jobs::JobFault;
use tx_join::{Contradiction, JoinRefusal, Joined, Kind, homes_of, join};
use tx_plan::Plan;
use tx_plantext::read_plan;
use tx_risk::Risks;
use tx_text::{Source, read_whole_text};

/// Which plan a text says: the one that a command is about, or the old or the new one of a change
/// or an order.
#[derive(Clone, Copy, Debug)]
pub enum Which {
    This,
    Old,
    New,
}

/// A plan, and the text that says it.
#[derive(Drop)]
pub struct PlanText<A: Allocator = Global> {
    pub text: Vec<u8, A>,
    pub plan: Plan<A>,
}

/// Two plans with their texts, and both over their joined network.
#[derive(Drop)]
pub struct TwoPlans<A: Allocator = Global> {
    pub old: PlanText<A>,
    pub new: PlanText<A>,
    pub joined: Joined<A>,
}

/// Two plans, and named risks over their joined network.
#[derive(Drop)]
pub struct PlansRisks<A: Allocator = Global> {
    pub plans: TwoPlans<A>,
    pub risks: Risks<A>,
}

/// A plan and an old one, with their texts.
#[derive(Drop)]
pub struct WithOld<A: Allocator = Global> {
    pub plan: PlanText<A>,
    pub old: PlanText<A>,
}

/// Reads a plan and then an old one, each to the end of its text.
pub fn read_with_old<A: Allocator + Copy, P: Source, Q: Source>(
    alloc: A,
    first: &mut P,
    second: &mut Q,
) -> Result<WithOld<A>, CommandFault>
    ensures texts { ReadsWithOld (input P.rest P.failed P.called first.old first.new)
        (input Q.rest Q.failed Q.called second.old second.new) result }
    ensures known { IfOk result AreSaid }
    ensures first_calls { CallsAtMost P.called source_calls first.old first.new }
    ensures second_calls { CallsAtMost Q.called source_calls second.old second.new }
{
    let plan = read_whole(alloc, Which::This, first)?;
    let old = read_whole(alloc, Which::Old, second)?;
    Ok(WithOld { plan, old })
}

/// Reads an old plan and then a new one, each to the end of its text, and joins them.
pub fn read_plans<A: Allocator + Copy, P: Source, Q: Source>(
    alloc: A,
    old: &mut P,
    new: &mut Q,
) -> Result<TwoPlans<A>, CommandFault>
    ensures texts { ReadsPlans (input P.rest P.failed P.called old.old old.new)
        (input Q.rest Q.failed Q.called new.old new.new) result }
    ensures known { IfOk result AreJoined }
    ensures old_calls { CallsAtMost P.called source_calls old.old old.new }
    ensures new_calls { CallsAtMost Q.called source_calls new.old new.new }
{
    let old = read_whole(alloc, Which::Old, old)?;
    let new = read_whole(alloc, Which::New, new)?;
    let joined = joined_of(alloc, &old, &new)?;
    Ok(TwoPlans { old, new, joined })
}

/// Reads an old plan and then a new one, joins them, and then reads named risks over their joined
/// network, if they are asked for.
pub fn read_plans_with_risks<A: Allocator + Copy, P: Source, Q: Source, R: Source>(
    alloc: A,
    named: bool,
    old: &mut P,
    new: &mut Q,
    risks: &mut R,
) -> Result<PlansRisks<A>, CommandFault>
    ensures texts { ReadsPlansWithRisks named (input P.rest P.failed P.called old.old old.new)
        (input Q.rest Q.failed Q.called new.old new.new)
        (input R.rest R.failed R.called risks.old risks.new) result }
    ensures known { IfOk result HavePlansRisks }
    ensures old_calls { CallsAtMost P.called source_calls old.old old.new }
    ensures new_calls { CallsAtMost Q.called source_calls new.old new.new }
    ensures risks_calls { CallsAtMost R.called source_calls risks.old risks.new }
{
    let plans = read_plans(alloc, old, new)?;
    let risks = read_risks_if(alloc, named, &plans.joined.new, risks)?;
    Ok(PlansRisks { plans, risks })
}

/// Reads the plan that a command is about, to the end of its text.
pub fn read_this<A: Allocator + Copy, S: Source>(
    alloc: A,
    source: &mut S,
) -> Result<PlanText<A>, CommandFault>
    ensures text { ReadsWhole This (input S.rest S.failed S.called source.old source.new) result }
    ensures known { IfOk result IsSaid }
    ensures calls { CallsAtMost S.called source_calls source.old source.new }
{
    read_whole(alloc, Which::This, source)
}

/// Reads a plan, to the end of its text.
pub(crate) fn read_whole<A: Allocator + Copy, S: Source>(
    alloc: A,
    which: Which,
    source: &mut S,
) -> Result<PlanText<A>, CommandFault>
    ensures text { ReadsWhole which (input S.rest S.failed S.called source.old source.new) result }
    ensures known { IfOk result IsSaid }
    ensures calls { CallsAtMost S.called source_calls source.old source.new }
{
    let text = read_whole_text(alloc, source)?;
    match read_plan(alloc, &text) {
        Ok(plan) => {
            plan.rules();
            Ok(PlanText { text, plan })
        }
        Err(fault) => Err(CommandFault::of_plan(which, fault)),
    }
}

/// Both plans over their joined network.
pub fn joined_of<A: Allocator + Copy>(
    alloc: A,
    old: &PlanText<A>,
    new: &PlanText<A>,
) -> Result<Joined<A>, CommandFault>
    ensures joined { IfOk result (IsJoin old.now.plan new.now.plan) }
    ensures refused { IfErr result (IsNoJoinOf old.now new.now) }
{
    match join(alloc, &old.plan, &new.plan) {
        Ok(joined) => Ok(joined),
        Err(refusal) => Err(join_fault(refusal, old, new)),
    }
}

/// Why two plans have no joined network, with the lines of their texts that say so.
fn join_fault<A: Allocator>(
    refusal: JoinRefusal,
    old: &PlanText<A>,
    new: &PlanText<A>,
) -> CommandFault
    ensures { result ≡ join_stop old.now new.now refusal }
{
    match refusal {
        JoinRefusal::OtherHome(code) => {
            let figures = new.plan.code_figures(code);
            let homes = homes_of(&old.plan, &new.plan, code);
            let found = Contradiction::of(Kind::Code, figures, homes, &old.text, &new.text);
            CommandFault::Contradiction(found)
        }
        JoinRefusal::OtherGroup(group) => {
            let name = new.plan.group_name(group);
            let found = Contradiction::of(Kind::Group, name, None, &old.text, &new.text);
            CommandFault::Contradiction(found)
        }
        JoinRefusal::TooMany => CommandFault::TooManyTogether,
        JoinRefusal::NoMemory => CommandFault::Job(JobFault::NoMemory),
    }
}
