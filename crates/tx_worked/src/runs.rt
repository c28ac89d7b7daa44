// Runs of a script, with the event at which they stop.
use crate::cases::{Ends, Task, event_word, takes_memory, written_after};
use std::alloc::Allocator;
use tx_audit::{Checked, run_checked};
use tx_cert::read_cert;
use tx_engine::Engine;
use tx_jobs::JobFault;
use tx_machine::Plain;
use tx_plan::{Limits, Plan};
use tx_plantext::read_plan;
use tx_script::{RunCause, RunFault, Summary, run};
use tx_text::{FaultKind, FrameFault, MemorySink, MemorySource};

/// The network that runs a script.
#[derive(Clone, Copy)]
pub(crate) enum Over {
    Plain,
    Engine,
}

/// A plan, a script, how many numbers were given and events accepted before, and the network that
/// runs it.
#[derive(Clone, Copy)]
pub(crate) struct Script<'a> {
    pub plan: &'a [u8],
    pub script: &'a [u8],
    pub numbers: u32,
    pub events: u64,
    pub over: Over,
}

impl<'a> Script<'a> {
    /// A script from the opening state, over the plain network.
    pub(crate) fn opening(plan: &'a [u8], script: &'a [u8]) -> Script<'a> {
        Script {
            plan,
            script,
            numbers: 0,
            events: 0,
            over: Over::Plain,
        }
    }
}

/// There is no run: the checker says No, or there is no memory before the first event.
const NOT_BEGUN: RunFault = RunFault {
    event: 0,
    cause: RunCause::NoMemory,
};

/// Runs a script over a new network of the plan.
fn run_over<A: Allocator + Copy>(
    alloc: A,
    plan: &Plan<A>,
    text: Script<'_>,
    source: &mut MemorySource<'_>,
    out: &mut MemorySink,
) -> Result<Summary, RunFault> {
    match text.over {
        Over::Plain => match Plain::starting_at(alloc, plan, text.numbers, text.events) {
            Ok(mut net) => run(alloc, plan, &mut net, source, out),
            Err(_) => Err(NOT_BEGUN),
        },
        Over::Engine => match Engine::starting_at(alloc, plan, text.numbers, text.events) {
            Ok(mut net) => {
                let end = run(alloc, plan, &mut net, source, out);
                end
            }
            Err(_) => Err(NOT_BEGUN),
        },
    }
}

/// Reads the plan, which is a good one, and runs the script that the source gives.
pub(crate) fn run_source<A: Allocator + Copy>(
    alloc: A,
    text: Script<'_>,
    source: &mut MemorySource<'_>,
    out: &mut MemorySink,
) -> Result<Summary, RunFault> {
    match read_plan(alloc, text.plan) {
        Ok(plan) => run_over(alloc, &plan, text, source, out),
        Err(_) => Err(NOT_BEGUN),
    }
}

/// The same of the script of the text, by its ends.
pub(crate) fn run_text<A: Allocator + Copy>(
    alloc: A,
    text: Script<'_>,
    ends: Ends,
    out: &mut MemorySink,
) -> Result<Summary, RunFault> {
    let mut source = ends.source(1, text.script);
    run_source(alloc, text, &mut source, out)
}

/// Runs the script of a task over its plan after a Yes to its certificate, and not after a No.
pub(crate) fn run_after_yes<A: Allocator + Copy>(
    alloc: A,
    task: Task<'_>,
    limits: Limits,
    ends: Ends,
    out: &mut MemorySink,
) -> Result<Summary, RunFault> {
    let Ok(plan) = read_plan(alloc, task.first) else {
        return Err(NOT_BEGUN);
    };
    let Ok(cert) = read_cert(alloc, task.second, &plan) else {
        return Err(NOT_BEGUN);
    };
    let (limit, spare) = (limits.limit, limits.spare);
    let mut source = ends.source(2, task.third);
    match run_checked(alloc, &plan, &cert, limit, spare, &mut source, out)? {
        Checked::Ran(summary) => Ok(summary),
        Checked::Denied(_) => Err(NOT_BEGUN),
    }
}

/// A cause as a job tells it.
pub(crate) fn told_cause(cause: RunCause) -> JobFault {
    match cause {
        RunCause::Read => JobFault::Read,
        RunCause::Write => JobFault::Write,
        RunCause::NoMemory => JobFault::NoMemory,
        RunCause::Script(fault) => match fault.kind {
            FaultKind::Frame(FrameFault::NoMemory) => JobFault::NoMemory,
            _ => JobFault::Script(fault),
        },
    }
}

/// Whether so many bytes of the whole output were written in an event: all of the events before it,
/// and of its own output nothing, or, where the writer failed, less than all.
pub(crate) fn is_in_event(event: u64, fault: JobFault, whole: &[u8], written: usize) -> bool {
    if event == 0 {
        return fault == JobFault::NoMemory && written == 0;
    }
    let before = written_after(whole, event.saturating_sub(1));
    if fault == JobFault::Write {
        before <= written && written < written_after(whole, event)
    } else {
        written == before
    }
}

/// Whether a run may run out of memory where it did: in an event that takes memory, or, for the
/// network or the reader, before the first.
pub(crate) fn may_want(fault: RunFault, script: &[u8]) -> bool {
    match fault.cause {
        RunCause::NoMemory => fault.event == 0 || takes_memory(event_word(script, fault.event)),
        RunCause::Script(_) => fault.event == 1,
        RunCause::Read | RunCause::Write => false,
    }
}
