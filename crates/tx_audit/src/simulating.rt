// Runs of scripts over the engine.
ghost use Rattle.std.specs.Prelude.{◌≡◌};
ghost use Rattle.tx_text.specs.Calls.{CallsAtMost, source_calls};
ghost use Rattle.tx_text.specs.Ends.{input, output};
ghost use Rattle.tx_script.specs.Answers.{mark_after};
ghost use Rattle.tx_audit.specs.Simulated.{Simulated};

use std::alloc::Allocator;
use tx_engine::Engine;
use tx_plan::Plan;
use tx_script::{RunCause, RunFault, Summary, run};
use tx_text::{Sink, Source};

/// Runs a script over the engine of the plan, from the opening state: the replies and the tickets
/// that are written are those of the run of its events. Without memory for the network the fault
/// names the first event, and nothing was read or written.
pub fn simulate<A: Allocator + Copy, R: Source, W: Sink>(
    alloc: A,
    plan: &Plan<A>,
    script: &mut R,
    out: &mut W,
) -> Result<Summary, RunFault>
    ensures answers { Simulated plan.now (input R.rest R.failed R.called script.old script.new)
        (output W.taken out.old out.new) result }
    ensures mark { W.failed out.new ≡ mark_after (W.failed out.old) result }
    ensures calls { CallsAtMost R.called source_calls script.old script.new }
{
    match Engine::new(alloc, plan) {
        Err(_) => Err(RunFault {
            event: 1,
            cause: RunCause::NoMemory,
        }),
        Ok(mut network) => run(alloc, plan, &mut network, script, out),
    }
}
