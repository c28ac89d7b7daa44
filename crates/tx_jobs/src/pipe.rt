// The job of the program without words.
ghost use Rattle.std.specs.Prelude.{◌≡◌, IfOk};
ghost use Rattle.tx_text.specs.Calls.{CallsAtMost, source_calls};
ghost use Rattle.tx_text.specs.Said.{told_fault};
ghost use Rattle.tx_plan.specs.Rules.{IsPlan};
ghost use Rattle.tx_plantext.specs.PlanText.{ReadsPlan};
ghost use Rattle.tx_jobs.specs.inner.Reading.{bytes_left, plan_rest, PlanCall, ScriptCall};
ghost use Rattle.tx_jobs.specs.JobFaults.{mark_after};
ghost use Rattle.tx_text.specs.Ends.{input, output};
ghost use Rattle.tx_jobs.specs.Jobs.{ScriptRan};
ghost use Rattle.tx_jobs.specs.PipeJobs.{PipeJobAnswers};

use crate::ahead::Ahead;
use crate::job_fault::JobFault;
use crate::plan_part::PlanPart;
use crate::run::simulated;
use crate::script_part::ScriptPart;
use std::alloc::Allocator;
use tx_plan::Plan;
use tx_plantext::{PlanFault, read_plan_from};
use tx_script::Summary;
use tx_text::{Sink, Source};

/// Reads a plan from an input, up to and with the first line whose one word is END, and then runs
/// the script that follows, whose lines count from 1. `Err` is the fault of the first call that
/// failed.
pub fn pipe_job<A: Allocator + Copy, R: Source, W: Sink>(
    alloc: A,
    input: &mut R,
    out: &mut W,
) -> Result<Summary, JobFault>
    ensures answers { PipeJobAnswers R.rest R.failed R.called input.old input.new
        (output W.taken out.old out.new) result }
    ensures mark { W.failed out.new ≡ mark_after (W.failed out.old) result }
{
    let mut ahead = Ahead::new();
    let mut part = PlanPart::new(input, &mut ahead);
    let plan = read_plan_part(alloc, &mut part)?;
    let mut script = ScriptPart::new(input, &mut ahead);
    run_script_part(alloc, &plan, &mut script, out)
}

/// Reads the plan. The part keeps what it is lent.
fn read_plan_part<A: Allocator + Copy, R: Source>(
    alloc: A,
    part: &mut PlanPart<'_, R>,
) -> Result<Plan<A>, PlanFault>
    ensures same_input { part.new.input.ghost_name ≡ part.old.input.ghost_name }
    ensures same_ahead { part.new.ahead.ghost_name ≡ part.old.ahead.ghost_name }
    ensures answer { ReadsPlan
        (input (plan_rest R.rest) (λ s. s.ahead.now.failed) (PlanCall R.rest R.failed R.called)
        part.old part.new)
        (told_fault result) }
    ensures rules { IfOk result IsPlan }
    ensures calls { CallsAtMost (PlanCall R.rest R.failed R.called) source_calls part.old part.new }
{
    read_plan_from(alloc, part)
}

/// Runs the script after the plan. The part keeps what it is lent.
fn run_script_part<A: Allocator + Copy, R: Source, W: Sink>(
    alloc: A,
    plan: &Plan<A>,
    script: &mut ScriptPart<'_, R>,
    out: &mut W,
) -> Result<Summary, JobFault>
    ensures same_input { script.new.input.ghost_name ≡ script.old.input.ghost_name }
    ensures same_ahead { script.new.ahead.ghost_name ≡ script.old.ahead.ghost_name }
    ensures answers { ScriptRan plan.now
        (input (bytes_left R.rest) (λ s. s.ahead.now.failed) (ScriptCall R.rest R.failed R.called)
        script.old script.new)
        (output W.taken out.old out.new) result }
    ensures mark { W.failed out.new ≡ mark_after (W.failed out.old) result }
    ensures calls { CallsAtMost (ScriptCall R.rest R.failed R.called) source_calls
        script.old script.new }
{
    simulated(alloc, plan, script, out)
}
