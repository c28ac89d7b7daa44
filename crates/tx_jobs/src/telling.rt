// The job of `run PLAN SCRIPT` where more is printed.
ghost use Rattle.std.specs.Prelude.{◌≡◌};
ghost use Rattle.tx_text.specs.Calls.{CallsAtMost, source_calls};
ghost use Rattle.tx_jobs.specs.JobFaults.{mark_after};
ghost use Rattle.tx_text.specs.Ends.{input, output};
ghost use Rattle.tx_jobs.specs.TellingJobs.{ScriptTold, TellingJobAnswers};

use crate::job_fault::JobFault;
use std::alloc::Allocator;
use tx_engine::Engine;
use tx_plan::Plan;
use tx_plantext::read_plan_from;
use tx_script::{Summary, Telling, run_telling};
use tx_text::{Sink, Source};

/// Reads a plan, and then runs a script over it as `run_job` does. Where they are asked for, the
/// line of each event comes before its reply, and the summary after the line END EVENTS.
pub fn run_telling_job<A: Allocator + Copy, P: Source, R: Source, W: Sink>(
    alloc: A,
    telling: Telling,
    plan: &mut P,
    script: &mut R,
    out: &mut W,
) -> Result<Summary, JobFault>
    ensures answers { TellingJobAnswers telling
        (input P.rest P.failed P.called plan.old plan.new)
        (input R.rest R.failed R.called script.old script.new)
        (output W.taken out.old out.new) result }
    ensures mark { W.failed out.new ≡ mark_after (W.failed out.old) result }
    ensures plan_calls { CallsAtMost P.called source_calls plan.old plan.new }
    ensures script_calls { CallsAtMost R.called source_calls script.old script.new }
{
    let plan = read_plan_from(alloc, plan)?;
    tell_script(alloc, telling, &plan, script, out)
}

/// Runs a script over a network of the plan, from its opening state, and returns what is asked for.
pub(crate) fn tell_script<A: Allocator + Copy, R: Source, W: Sink>(
    alloc: A,
    telling: Telling,
    plan: &Plan<A>,
    script: &mut R,
    out: &mut W,
) -> Result<Summary, JobFault>
    ensures answers { ScriptTold plan.now telling
        (input R.rest R.failed R.called script.old script.new)
        (output W.taken out.old out.new) result }
    ensures mark { W.failed out.new ≡ mark_after (W.failed out.old) result }
    ensures calls { CallsAtMost R.called source_calls script.old script.new }
{
    let mut network = Engine::new(alloc, plan)?;
    Ok(run_telling(alloc, telling, plan, &mut network, script, out)?)
}
