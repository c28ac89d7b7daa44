// Runs of scripts over plans that the checker has passed.
ghost use Rattle.std.specs.Prelude.{◌≡◌, ◌≤◌};
ghost use Rattle.tx_text.specs.Calls.{CallsAtMost, source_calls};
ghost use Rattle.tx_text.specs.Ends.{input, output};
ghost use Rattle.tx_audit.specs.CheckedRuns.{CheckedAnswers, mark_after};

use crate::checked::Checked;
use crate::simulating::simulate;
use std::alloc::Allocator;
use tx_cert::Cert;
use tx_check::{Verdict, check};
use tx_plan::Plan;
use tx_script::RunFault;
use tx_text::{Sink, Source};

/// Runs a script over the engine of the plan, if the checker says Yes to the certificate for
/// `limit` (0 to 62) and `spare` (0 to 15): every state of the run is then safe and every NC
/// excused. After a No nothing is read or written. Without memory for the network the fault names
/// the first event.
pub fn run_checked<A: Allocator + Copy, R: Source, W: Sink>(
    alloc: A,
    plan: &Plan<A>,
    cert: &Cert<A>,
    limit: u8,
    spare: u8,
    script: &mut R,
    out: &mut W,
) -> Result<Checked, RunFault>
    requires limit { limit ≤ 62 }
    requires spare { spare ≤ 15 }
    ensures answers { CheckedAnswers plan.now cert.now limit spare
        (input R.rest R.failed R.called script.old script.new)
        (output W.taken out.old out.new) result }
    ensures mark { W.failed out.new ≡ mark_after (W.failed out.old) result }
    ensures calls { CallsAtMost R.called source_calls script.old script.new }
{
    match check(plan, cert, limit, spare) {
        Verdict::Yes => {
            let summary = simulate(alloc, plan, script, out)?;
            Ok(Checked::Ran(summary))
        }
        Verdict::No(fault) => Ok(Checked::Denied(fault)),
    }
}
