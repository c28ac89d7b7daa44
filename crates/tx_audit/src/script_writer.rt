// The script of some events.
ghost use Rattle.std.specs.Prelude.{◌≡◌};
ghost use Rattle.std.specs.List.{flat_map, AllByRecursion};
ghost use Rattle.tx_text.specs.Told.{AtEnd};
ghost use Rattle.tx_text.specs.Puts.{Puts};
ghost use Rattle.tx_text.specs.Wrote.{Wrote};
ghost use Rattle.tx_script.specs.Events.{IsWritable, event_text};
ghost use Rattle.tx_script.specs.Script.{script_of, whole};
ghost use Rattle.tx_audit.specs.Scripts.{script_written};

use std::alloc::Allocator;
use tx_machine::Event;
use tx_plan::Plan;
use tx_script::write_any_event;
use tx_text::{Sink, WriteFault, finish, put_bytes};

/// Writes a script of the events: the header, a line for each event, and END. The plan has the
/// events' ids, and their circuits have numbers from 1 to 240. The script says these events again.
/// Stops where the sink fails.
pub fn write_counter<A: Allocator, W: Sink>(
    plan: &Plan<A>,
    events: &[Event],
    sink: &mut W,
) -> Result<(), WriteFault>
    requires { AllByRecursion (IsWritable plan.now) events.now }
    ensures wrote { Wrote W.taken W.failed sink.old sink.new
        (script_written plan.now events.now) result }
    ensures says { script_of plan.now AtEnd (script_written plan.now events.now)
        ≡ whole events.now }
{
    plan.rules();
    put_bytes(b"SCRIPT 1\n", sink);
    write_events(plan, events, sink);
    put_bytes(b"END\n", sink);
    finish(sink)
}

/// Writes a line for each event.
#[tactic(auto, using(tx_text::proofs::Putting::puts_none, tx_text::proofs::Putting::puts_more, tx_text::proofs::Putting::puts_all))]
fn write_events<A: Allocator, W: Sink>(plan: &Plan<A>, events: &[Event], sink: &mut W)
    ensures { Puts W.taken W.failed sink.old sink.new
        (flat_map (event_text plan.now) events.now) }
{
    for i in 0..events.len() {
        write_any_event(&events[i], plan, sink);
    }
}
