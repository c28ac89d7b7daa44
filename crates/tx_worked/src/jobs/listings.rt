// Runs and jobs at each room, at each failing call and for each prefix.
use crate::cases::{Ends, Refusing, Task, Told, calls_left, tell, tell_broken, tell_count};
use crate::jobs::job::{Did, End, Whole, Work, done};
use crate::jobs::stretches::{Happens, Stretches};
use crate::jobs::trials::MANY;
use crate::runs::{Script, run_source, told_cause};
use std::alloc::Global;
use tx_files::CommandFault;
use tx_jobs::write_fault;
use tx_text::{MemorySink, MemorySource};

/// What a work did, and how many bytes it wrote, where that is told.
fn happens(did: &Did, bytes: Option<u64>) -> Happens {
    let (event, fault) = match did.end {
        End::Job(end) => (None, end.err()),
        End::Run(Ok(_)) => (None, None),
        End::Run(Err(fault)) => {
            let cause = told_cause(fault.cause);
            (Some(fault.event), Some(CommandFault::Job(cause)))
        }
    };
    Happens {
        event,
        bytes,
        fault,
    }
}

/// What a run does in each room, from none to the one that suffices.
pub(crate) fn list_rooms(alloc: Global, text: Script<'_>, whole: &Whole, out: &mut Told) {
    let mut stretches = Stretches::new();
    for room in 0..=whole.text().len() {
        let did = done(alloc, Work::Run(text), Ends::with_room(room), whole.text());
        if did.written != room || !did.is_front {
            tell_broken(b"not the front of the output in room", room as u64, out);
        }
        stretches.put(room as u64, happens(&did, None), out);
    }
    stretches.end(out);
}

/// What a run does where each call of its source, of so many bytes, fails in turn, until none fails.
pub(crate) fn list_calls(
    alloc: Global,
    text: Script<'_>,
    piece: usize,
    whole: &Whole,
    out: &mut Told,
) {
    let mut stretches = Stretches::new();
    for call in 1..MANY {
        let mut ends = Ends::failing(1, call);
        ends.piece = piece;
        let did = done(alloc, Work::Run(text), ends, whole.text());
        if !did.is_front {
            tell_broken(b"not a front of the output at call", call, out);
        }
        stretches.put(call, happens(&did, Some(did.written as u64)), out);
        if did.end == whole.end {
            break;
        }
    }
    stretches.end(out);
}

/// Writes what a run writes, where it stops, and how many calls of the script's source it makes, at
/// one byte a call, where the writer takes so many bytes.
pub(crate) fn count_calls(alloc: Global, text: Script<'_>, room: usize, out: &mut Told) {
    let mut source = MemorySource::new(text.script, 1, Some(1001));
    let Ok(mut written) = MemorySink::new(alloc, room) else {
        return tell_broken(b"no memory", 0, out);
    };
    let memory = Refusing::new(alloc, 0);
    let end = run_source(&memory, text, &mut source, &mut written);
    tell(written.taken(), out);
    if let Err(fault) = end {
        tell_count(b"\nevent ", fault.event, b": ", out);
        let _ = write_fault(&told_cause(fault.cause), out);
    }
    let calls = 1000u64.saturating_sub(calls_left(&mut source));
    tell_count(b"", calls, b" reads\n", out);
}

/// What a job does with each front of its last text, from none of it to the whole.
pub(crate) fn list_prefixes(alloc: Global, task: Task<'_>, whole: &Whole, out: &mut Told) {
    let mut stretches = Stretches::new();
    let last = task.last();
    for length in 0..=last.len() {
        let cut = task.with_last(last.split_at(length.min(last.len())).0);
        let did = done(alloc, Work::Job(cut), Ends::pieces(4096), whole.text());
        if !did.is_front {
            tell_broken(b"not a front of the output, prefix", length as u64, out);
        }
        stretches.put(length as u64, happens(&did, Some(did.written as u64)), out);
    }
    stretches.end(out);
}
