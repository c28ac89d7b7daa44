// The job of `codes PLAN`.
ghost use Rattle.std.specs.Prelude.{◌≡◌};
ghost use Rattle.tx_text.specs.Calls.{CallsAtMost, source_calls};
ghost use Rattle.tx_jobs.specs.JobFaults.{mark_after};
ghost use Rattle.tx_text.specs.Ends.{input, output};
ghost use Rattle.tx_jobs.specs.Jobs.{CodesJobAnswers, ToldCodes};

use crate::job_fault::JobFault;
use std::alloc::Allocator;
use tx_plan::{CodeId, Plan};
use tx_plantext::read_plan_from;
use tx_text::{Sink, Source};
use tx_trie::{CodeTrie, write_codes};

/// Reads a plan, and writes its codes and then the least pair of a code and a longer one that
/// begins with it, or `DISTINCT`. Answers that pair, if there is one. `Err` is the fault of the
/// first call that failed.
pub fn codes_job<A: Allocator + Copy, P: Source, W: Sink>(
    alloc: A,
    plan: &mut P,
    out: &mut W,
) -> Result<Option<(CodeId, CodeId)>, JobFault>
    ensures answers { CodesJobAnswers (input P.rest P.failed P.called plan.old plan.new)
        (output W.taken out.old out.new) result }
    ensures mark { W.failed out.new ≡ mark_after (W.failed out.old) result }
    ensures calls { CallsAtMost P.called source_calls plan.old plan.new }
{
    let plan = read_plan_from(alloc, plan)?;
    tell_codes(alloc, &plan, out)
}

fn tell_codes<A: Allocator + Copy, W: Sink>(
    alloc: A,
    plan: &Plan<A>,
    out: &mut W,
) -> Result<Option<(CodeId, CodeId)>, JobFault>
    ensures told { ToldCodes plan.now (output W.taken out.old out.new) result }
    ensures mark { W.failed out.new ≡ mark_after (W.failed out.old) result }
{
    let trie = CodeTrie::build(alloc, plan)?;
    write_codes(plan, &trie, out)?;
    Ok(trie.ambiguous())
}
