// Cases that run a script whole, and what is told beside that.
use crate::cases::{Ends, Head, Told, long_number, tell, tell_broken, tell_count};
use crate::jobs::{End, Whole, Work, list_calls, list_rooms, reads, try_refusals, try_rooms};
use crate::runs::{Script, told_cause};
use std::alloc::Global;
use tx_jobs::write_fault;
use tx_script::{RunFault, Summary};

/// Writes what was counted of a run.
pub(crate) fn tell_summary(summary: &Summary, out: &mut Told) {
    tell_count(b"-- ", summary.events, b" events, ", out);
    tell_count(b"", summary.refused, b" refused, ", out);
    tell_count(b"", summary.tickets, b" tickets, ", out);
    tell_count(b"", summary.open_calls, b" open\n", out);
}

/// Tries the laws of a run: what is written, and which event is told, wherever an end fails or
/// memory is refused. Writes what it counted or where it stopped.
fn try_run_laws(alloc: Global, text: Script<'_>, whole: &Whole, out: &mut Told) {
    let _ = reads(alloc, Work::Run(text), 1, whole, out);
    try_rooms(alloc, Work::Run(text), whole, out);
    try_refusals(alloc, Work::Run(text), whole, out);
    match whole.end {
        End::Run(Ok(summary)) => tell_summary(&summary, out),
        End::Run(Err(RunFault { event: 0, cause: _ })) => tell(b"-- no plan\n", out),
        End::Run(Err(fault)) => tell_count(b"-- stopped at event ", fault.event, b"\n", out),
        End::Job(_) => {}
    }
}

/// Writes what a run writes, and what it counts or the event and the cause that stop it.
fn tell_run(whole: &Whole, out: &mut Told) {
    tell(whole.text(), out);
    match whole.end {
        End::Run(Ok(summary)) => tell_summary(&summary, out),
        End::Run(Err(fault)) => {
            tell_count(b"event ", fault.event, b": ", out);
            let _ = write_fault(&told_cause(fault.cause), out);
        }
        End::Job(_) => {}
    }
}

/// Runs a script whole, and tells something of the run by the kind of the case: its laws, what it
/// does in each room or where a call of its source fails, or what it writes.
pub(crate) fn play_run(alloc: Global, head: Head<'_>, text: Script<'_>, out: &mut Told) {
    let (number, _) = head.numbers();
    let mut text = text;
    if head.word == b"starting".as_slice() {
        text.numbers = number;
        text.events = long_number(head.second);
    }
    let Ok(whole) = Whole::of(alloc, Work::Run(text), Ends::pieces(7)) else {
        return tell_broken(b"no memory", 0, out);
    };
    match head.word {
        b"both" => try_run_laws(alloc, text, &whole, out),
        b"rooms" => list_rooms(alloc, text, &whole, out),
        b"calls" => list_calls(alloc, text, number as usize, &whole, out),
        _ => tell_run(&whole, out),
    }
}
