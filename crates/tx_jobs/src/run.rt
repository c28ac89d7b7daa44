// The job of `run PLAN SCRIPT`.
ghost use Rattle.std.specs.Prelude.{◌≡◌};
ghost use Rattle.tx_text.specs.Calls.{CallsAtMost, source_calls};
ghost use Rattle.tx_jobs.specs.JobFaults.{mark_after};
ghost use Rattle.tx_text.specs.Ends.{input, output};
ghost use Rattle.tx_jobs.specs.Jobs.{RunJobAnswers, ScriptRan};

use crate::job_fault::JobFault;
use std::alloc::Allocator;
use tx_audit::simulate;
use tx_plan::Plan;
use tx_plantext::read_plan_from;
use tx_script::Summary;
use tx_text::{Sink, Source};

/// Reads a plan, and then runs a script over it: writes the replies and the tickets of its events,
/// and at its end the line END EVENTS.
///
/// `Err` is the fault of the first call that failed. Nothing of the script is read where the plan
/// is refused.
pub fn run_job<A: Allocator + Copy, P: Source, R: Source, W: Sink>(
    alloc: A,
    plan: &mut P,
    script: &mut R,
    out: &mut W,
) -> Result<Summary, JobFault>
    ensures answers { RunJobAnswers (input P.rest P.failed P.called plan.old plan.new)
        (input R.rest R.failed R.called script.old script.new)
        (output W.taken out.old out.new) result }
    ensures mark { W.failed out.new ≡ mark_after (W.failed out.old) result }
    ensures plan_calls { CallsAtMost P.called source_calls plan.old plan.new }
    ensures script_calls { CallsAtMost R.called source_calls script.old script.new }
{
    let plan = read_plan_from(alloc, plan)?;
    simulated(alloc, &plan, script, out)
}

/// Runs a script over a network of the plan, from its opening state.
pub(crate) fn simulated<A: Allocator + Copy, R: Source, W: Sink>(
    alloc: A,
    plan: &Plan<A>,
    script: &mut R,
    out: &mut W,
) -> Result<Summary, JobFault>
    ensures answers { ScriptRan plan.now (input R.rest R.failed R.called script.old script.new)
        (output W.taken out.old out.new) result }
    ensures mark { W.failed out.new ≡ mark_after (W.failed out.old) result }
    ensures calls { CallsAtMost R.called source_calls script.old script.new }
{
    Ok(simulate(alloc, plan, script, out)?)
}
