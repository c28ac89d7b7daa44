// What requests read.
ghost use Rattle.std.specs.Prelude.{IfOk};
ghost use Rattle.tx_text.specs.Calls.{CallsAtMost, source_calls};
ghost use Rattle.tx_text.specs.Ends.{input};
ghost use Rattle.tx_plan.specs.Rules.{IsPlan};
ghost use Rattle.tx_files.specs.Reading.{ReadsPlan, ReadsRisksIf, ReadsWithRisks, HasItsRisks};

use crate::fault::CommandFault;
use std::alloc::{Allocator, Global};
use tx_plan::Plan;
use tx_plantext::read_plan_from;
use tx_risk::{Risks, read_risks_from};
use tx_text::Source;

/// A plan, and its named risks.
#[derive(Drop)]
pub struct PlanRisks<A: Allocator = Global> {
    pub plan: Plan<A>,
    pub risks: Risks<A>,
}

/// Reads a plan.
pub fn read_one<A: Allocator + Copy, P: Source>(
    alloc: A,
    source: &mut P,
) -> Result<Plan<A>, CommandFault>
    ensures text { ReadsPlan (input P.rest P.failed P.called source.old source.new) result }
    ensures known { IfOk result IsPlan }
    ensures calls { CallsAtMost P.called source_calls source.old source.new }
{
    Ok(read_plan_from(alloc, source)?)
}

/// Reads a plan, and its named risks if they are asked for.
pub fn read_with_risks<A: Allocator + Copy, P: Source, Q: Source>(
    alloc: A,
    named: bool,
    first: &mut P,
    second: &mut Q,
) -> Result<PlanRisks<A>, CommandFault>
    ensures texts { ReadsWithRisks named (input P.rest P.failed P.called first.old first.new)
        (input Q.rest Q.failed Q.called second.old second.new) result }
    ensures known { IfOk result HasItsRisks }
    ensures first_calls { CallsAtMost P.called source_calls first.old first.new }
    ensures second_calls { CallsAtMost Q.called source_calls second.old second.new }
{
    let plan = read_plan_from(alloc, first)?;
    let risks = read_risks_if(alloc, named, &plan, second)?;
    Ok(PlanRisks { plan, risks })
}

/// Reads the named risks of a plan, if they are asked for.
pub(crate) fn read_risks_if<A: Allocator + Copy, Q: Source>(
    alloc: A,
    named: bool,
    plan: &Plan<A>,
    source: &mut Q,
) -> Result<Risks<A>, CommandFault>
    ensures texts { ReadsRisksIf named plan.now
        (input Q.rest Q.failed Q.called source.old source.new) result }
    ensures calls { CallsAtMost Q.called source_calls source.old source.new }
{
    if named {
        Ok(read_risks_from(alloc, source, plan)?)
    } else {
        Ok(Risks::none(alloc))
    }
}
