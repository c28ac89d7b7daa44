// The laws of a job and of a run: however its sources cut the text, wherever an end fails, and
// whichever request for memory is refused.
use crate::cases::{Ends, Task, Told, tell, tell_broken, tell_count, tell_parts};
use crate::jobs::job::{Did, End, Whole, Work, done};
use crate::runs::may_want;
use std::alloc::Global;
use tx_jobs::JobFault;

/// More than any case has of anything.
pub(crate) const MANY: u64 = 1_000_000;

/// Plays a job by sources of 1, 2, 7 and 4,096 bytes a call, which has to make no difference.
pub(crate) fn try_pieces(alloc: Global, task: Task<'_>, whole: &Whole, out: &mut Told) {
    for piece in [1usize, 2, 7, 4096] {
        let ends = Ends::pieces(piece);
        if !done(alloc, Work::Job(task), ends, whole.text()).is_as(whole) {
            tell_broken(b"not the same in pieces of", piece as u64, out);
            if let Ok(other) = Whole::of(alloc, Work::Job(task), ends) {
                tell(other.text(), out);
            }
        }
    }
}

/// How many calls of a source a work makes, at one byte a call. Each of them, where it fails, has
/// to make it a read fault.
pub(crate) fn reads(
    alloc: Global,
    work: Work<'_>,
    index: usize,
    whole: &Whole,
    out: &mut Told,
) -> u64 {
    for made in 0..MANY {
        let ends = Ends::failing(index, made.saturating_add(1));
        let did = done(alloc, work, ends, whole.text());
        if !did.stopped(JobFault::Read, whole) {
            if !did.is_as(whole) {
                tell_broken(b"calls of a source before it fails:", made, out);
            }
            return made;
        }
    }
    MANY
}

/// Gives a work each room, up to one for all: where it is too small, the work has to stop with a
/// write fault after so many bytes.
pub(crate) fn try_rooms(alloc: Global, work: Work<'_>, whole: &Whole, out: &mut Told) {
    let all = whole.text().len();
    for room in 0..=all {
        let did = done(alloc, work, Ends::with_room(room), whole.text());
        let keeps = if room < all {
            did.stopped(JobFault::Write, whole) && did.written == room
        } else {
            did.is_as(whole)
        };
        if !keeps {
            tell_broken(b"room", room as u64, out);
            break;
        }
    }
}

/// Refuses each request for memory in turn, which has to make the work run out of memory, where it
/// may, until none is refused.
pub(crate) fn try_refusals(alloc: Global, work: Work<'_>, whole: &Whole, out: &mut Told) {
    for refused in 1..MANY {
        let did = done(alloc, work, Ends::refusing(refused), whole.text());
        let keeps = if did.came {
            did.stopped(JobFault::NoMemory, whole) && wants(work, &did)
        } else {
            did.is_as(whole) && refused > 1
        };
        if !keeps {
            tell_broken(b"refused request", refused, out);
        }
        if !did.came || !keeps {
            break;
        }
    }
}

/// Whether a work may run out of memory where it did.
fn wants(work: Work<'_>, did: &Did) -> bool {
    match (work, did.end) {
        (Work::Run(text), End::Run(Err(fault))) => may_want(fault, text.script),
        _ => true,
    }
}

/// Gives each room, and makes each call of each source fail. Tells a task's status, how many calls
/// of its sources it makes and how many bytes it writes.
pub(crate) fn try_ends(alloc: Global, task: Task<'_>, whole: &Whole, out: &mut Told) {
    try_rooms(alloc, Work::Job(task), whole, out);
    tell_parts(&[b"-- ", task.kind], out);
    tell_count(b": status ", u64::from(whole.status()), b"", out);
    for index in 0..task.sources() {
        let count = reads(alloc, Work::Job(task), index, whole, out);
        let before = if index == 0 {
            b", ".as_slice()
        } else {
            b" and "
        };
        tell_count(before, count, b"", out);
    }
    let bytes = whole.text().len() as u64;
    tell_count(b" reads, ", bytes, b" bytes\n", out);
}
