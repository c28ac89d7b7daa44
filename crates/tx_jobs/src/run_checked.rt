// The job of `run PLAN SCRIPT --cert CERT --limit L --spare K`.
ghost use Rattle.std.specs.Prelude.{◌≡◌, ◌≤◌, None};
ghost use Rattle.tx_text.specs.Calls.{CallsAtMost, source_calls};
ghost use Rattle.tx_jobs.specs.JobFaults.{mark_after};
ghost use Rattle.tx_text.specs.Ends.{input, output};
ghost use Rattle.tx_jobs.specs.CheckedJobs.{CheckedJobAnswers, CertAnswers, ToldRun, ScriptDone};

use crate::job_fault::JobFault;
use crate::run::simulated;
use crate::telling::tell_script;
use std::alloc::Allocator;
use tx_audit::Checked;
use tx_cert::{Cert, read_cert_from};
use tx_check::{Verdict, check, write_verdict};
use tx_plan::{Limits, Plan};
use tx_plantext::read_plan_from;
use tx_script::{Summary, Telling};
use tx_text::{Sink, Source};

/// Reads a plan and a certificate, and runs a script over the plan after a Yes of the checker for
/// at most `limit` transits (0 to 62) and `spare` groups to spare (0 to 15). After a No it writes
/// the verdict alone, and reads nothing of the script. `Err` is the fault of the first call that
/// failed.
pub fn run_checked_job<A: Allocator + Copy, P: Source, C: Source, R: Source, W: Sink>(
    alloc: A,
    plan: &mut P,
    cert: &mut C,
    limit: u8,
    spare: u8,
    script: &mut R,
    out: &mut W,
) -> Result<Checked, JobFault>
    requires limit { limit ≤ 62 }
    requires spare { spare ≤ 15 }
    ensures answers { CheckedJobAnswers None limit spare
        (input P.rest P.failed P.called plan.old plan.new)
        (input C.rest C.failed C.called cert.old cert.new)
        (input R.rest R.failed R.called script.old script.new)
        (output W.taken out.old out.new) result }
    ensures mark { W.failed out.new ≡ mark_after (W.failed out.old) result }
    ensures plan_calls { CallsAtMost P.called source_calls plan.old plan.new }
    ensures cert_calls { CallsAtMost C.called source_calls cert.old cert.new }
    ensures script_calls { CallsAtMost R.called source_calls script.old script.new }
{
    run_checked_telling_job(
        alloc,
        None,
        plan,
        cert,
        Limits { limit, spare },
        script,
        out,
    )
}

/// Does the same, and prints what is asked for of the run after a Yes, as `run_telling_job` does.
pub fn run_checked_telling_job<A: Allocator + Copy, P: Source, C: Source, R: Source, W: Sink>(
    alloc: A,
    telling: Option<Telling>,
    plan: &mut P,
    cert: &mut C,
    limits: Limits,
    script: &mut R,
    out: &mut W,
) -> Result<Checked, JobFault>
    ensures answers { CheckedJobAnswers telling limits.limit limits.spare
        (input P.rest P.failed P.called plan.old plan.new)
        (input C.rest C.failed C.called cert.old cert.new)
        (input R.rest R.failed R.called script.old script.new)
        (output W.taken out.old out.new) result }
    ensures mark { W.failed out.new ≡ mark_after (W.failed out.old) result }
    ensures plan_calls { CallsAtMost P.called source_calls plan.old plan.new }
    ensures cert_calls { CallsAtMost C.called source_calls cert.old cert.new }
    ensures script_calls { CallsAtMost R.called source_calls script.old script.new }
{
    let plan = read_plan_from(alloc, plan)?;
    read_and_run(alloc, telling, &plan, cert, limits, script, out)
}

/// Reads a certificate of the plan, and runs the script after a Yes.
fn read_and_run<A: Allocator + Copy, C: Source, R: Source, W: Sink>(
    alloc: A,
    telling: Option<Telling>,
    plan: &Plan<A>,
    cert: &mut C,
    limits: Limits,
    script: &mut R,
    out: &mut W,
) -> Result<Checked, JobFault>
    ensures answers { CertAnswers telling plan.now limits.limit limits.spare
        (input C.rest C.failed C.called cert.old cert.new)
        (input R.rest R.failed R.called script.old script.new)
        (output W.taken out.old out.new) result }
    ensures mark { W.failed out.new ≡ mark_after (W.failed out.old) result }
    ensures cert_calls { CallsAtMost C.called source_calls cert.old cert.new }
    ensures script_calls { CallsAtMost R.called source_calls script.old script.new }
{
    let cert = read_cert_from(alloc, cert, plan)?;
    run_or_tell(alloc, telling, plan, &cert, limits, script, out)
}

/// Runs the script after a Yes, or writes the verdict.
fn run_or_tell<A: Allocator + Copy, R: Source, W: Sink>(
    alloc: A,
    telling: Option<Telling>,
    plan: &Plan<A>,
    cert: &Cert<A>,
    limits: Limits,
    script: &mut R,
    out: &mut W,
) -> Result<Checked, JobFault>
    ensures told { ToldRun telling plan.now cert.now limits.limit limits.spare
        (input R.rest R.failed R.called script.old script.new)
        (output W.taken out.old out.new) result }
    ensures mark { W.failed out.new ≡ mark_after (W.failed out.old) result }
    ensures calls { CallsAtMost R.called source_calls script.old script.new }
{
    let verdict = check(plan, cert, limits.limit, limits.spare);
    match &verdict {
        Verdict::Yes => {
            let summary = do_script(alloc, telling, plan, script, out)?;
            Ok(Checked::Ran(summary))
        }
        Verdict::No(fault) => {
            write_verdict(&verdict, plan, out)?;
            Ok(Checked::Denied(*fault))
        }
    }
}

/// Runs a script over a network of the plan, and prints its events if that is asked for.
fn do_script<A: Allocator + Copy, R: Source, W: Sink>(
    alloc: A,
    telling: Option<Telling>,
    plan: &Plan<A>,
    script: &mut R,
    out: &mut W,
) -> Result<Summary, JobFault>
    ensures answers { ScriptDone telling plan.now
        (input R.rest R.failed R.called script.old script.new)
        (output W.taken out.old out.new) result }
    ensures mark { W.failed out.new ≡ mark_after (W.failed out.old) result }
    ensures calls { CallsAtMost R.called source_calls script.old script.new }
{
    match telling {
        Some(telling) => tell_script(alloc, telling, plan, script, out),
        None => simulated(alloc, plan, script, out),
    }
}
