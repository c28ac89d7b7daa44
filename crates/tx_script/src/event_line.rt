// The event of one line of a script.
ghost use Rattle.std.specs.Prelude.{◌≡◌, IfOk};
ghost use Rattle.tx_script.specs.Events.{event_in, IsWritable, EventsReadBack};

use crate::event_words::event_of;
use crate::script_word::ScriptKind;
use std::alloc::Allocator;
use tx_machine::Event;
use tx_plan::Plan;
use tx_text::{FaultKind, FrameFault, bytes_fault, words};

/// The event that one line of a script says, given without its LF and the CR before it. `Err` is
/// the first fault: one of its bytes comes before those of its words. A line without words, one
/// that begins with SCRIPT and the one word END are no events: they are S1.
pub fn read_event<A: Allocator>(line: &[u8], plan: &Plan<A>) -> Result<Event, ScriptKind>
    ensures event { result ≡ event_in plan.now line.now }
    ensures writable { IfOk result (IsWritable plan.now) }
{
    if let Some(fault) = bytes_fault(line) {
        return Err(FaultKind::Frame(FrameFault::from(fault)));
    }
    match event_of(words(line), plan) {
        Ok(event) => Ok(event),
        Err(word) => Err(FaultKind::Word(word)),
    }
}

/// The line that is written for an event of the plan says that event. Does nothing: its contract is
/// a law.
pub fn event_lines_read_back()
    ensures { EventsReadBack }
{}
