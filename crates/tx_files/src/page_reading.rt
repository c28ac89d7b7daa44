// What a page is made of.
ghost use Rattle.std.specs.Prelude.{IfOk};
ghost use Rattle.tx_text.specs.Calls.{CallsAtMost, source_calls};
ghost use Rattle.tx_text.specs.Ends.{input};
ghost use Rattle.tx_files.specs.PageReading.{ReadsForPage, ReadsOldIf, AreForPage};

use crate::fault::CommandFault;
use crate::reading::read_risks_if;
use crate::two_plans::{PlanText, Which, read_whole};
use std::alloc::{Allocator, Global};
use tx_risk::Risks;
use tx_text::Source;

/// A plan, its named risks, and the old plan, if one is asked for.
#[derive(Drop)]
pub struct PageTexts<A: Allocator = Global> {
    pub plan: PlanText<A>,
    pub risks: Risks<A>,
    pub old: Option<PlanText<A>>,
}

/// Reads a plan, then its named risks and then an old plan, these two if they are asked for.
pub fn read_for_page<A: Allocator + Copy, P: Source, Q: Source, R: Source>(
    alloc: A,
    named: bool,
    changed: bool,
    first: &mut P,
    second: &mut Q,
    third: &mut R,
) -> Result<PageTexts<A>, CommandFault>
    ensures texts { ReadsForPage named changed
        (input P.rest P.failed P.called first.old first.new)
        (input Q.rest Q.failed Q.called second.old second.new)
        (input R.rest R.failed R.called third.old third.new) result }
    ensures known { IfOk result AreForPage }
    ensures first_calls { CallsAtMost P.called source_calls first.old first.new }
    ensures second_calls { CallsAtMost Q.called source_calls second.old second.new }
    ensures third_calls { CallsAtMost R.called source_calls third.old third.new }
{
    let plan = read_whole(alloc, Which::This, first)?;
    let risks = read_risks_if(alloc, named, &plan.plan, second)?;
    let old = read_old_if(alloc, changed, third)?;
    Ok(PageTexts { plan, risks, old })
}

/// Reads an old plan, if it is asked for.
fn read_old_if<A: Allocator + Copy, R: Source>(
    alloc: A,
    changed: bool,
    source: &mut R,
) -> Result<Option<PlanText<A>>, CommandFault>
    ensures texts { ReadsOldIf changed
        (input R.rest R.failed R.called source.old source.new) result }
    ensures calls { CallsAtMost R.called source_calls source.old source.new }
{
    if changed {
        Ok(Some(read_whole(alloc, Which::Old, source)?))
    } else {
        Ok(None)
    }
}
