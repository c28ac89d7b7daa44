// A job or a run over texts, and what it does.
use crate::cases::{Ends, Refusing, Task};
use crate::runs::{Script, is_in_event, run_after_yes, run_text, told_cause};
use std::alloc::{Allocator, Global};
use tx_commands::Command;
use tx_files::{CommandFault, Ending, write_content};
use tx_jobs::JobFault;
use tx_plan::Limits;
use tx_requests::do_command;
use tx_script::{RunFault, Summary};
use tx_text::{MemorySink, NoMemory, WriteFault};

/// What is done: a command over its texts, or a script over a network, at once or after a check.
#[derive(Clone, Copy)]
pub(crate) enum Work<'a> {
    Job(Task<'a>),
    Run(Script<'a>),
    /// The run of a task after a Yes, without the job.
    Checked(Task<'a>, Limits),
}

/// How it ends: a job with its exit status or its fault, and a run with what it counted or where it
/// stopped.
#[derive(Clone, Copy, PartialEq, Eq)]
pub(crate) enum End {
    Job(Result<u8, CommandFault>),
    Run(Result<Summary, RunFault>),
}

/// What a whole work does, beside which others are judged: how it ends, and what it writes.
#[derive(Drop)]
pub(crate) struct Whole {
    pub end: End,
    written: MemorySink,
}

impl Whole {
    pub(crate) fn of(alloc: Global, work: Work<'_>, ends: Ends) -> Result<Whole, NoMemory> {
        let mut written = MemorySink::new(alloc, ends.room)?;
        let end = do_in_room(alloc, work, ends, b"", &mut written).end;
        Ok(Whole { end, written })
    }

    pub(crate) fn text(&self) -> &[u8] {
        self.written.taken()
    }

    /// The exit status of a job.
    pub(crate) fn status(&self) -> u8 {
        match self.end {
            End::Job(Ok(status)) => status,
            End::Job(Err(fault)) => fault.status(),
            End::Run(_) => 0,
        }
    }
}

/// What a work did: how it ended, how many bytes it wrote, whether these are a front of what the
/// whole work writes, and whether the request for memory came that was to be refused.
#[derive(Clone, Copy)]
pub(crate) struct Did {
    pub end: End,
    pub written: usize,
    pub is_front: bool,
    pub came: bool,
}

impl Did {
    /// Whether it did all that the whole work does.
    pub(crate) fn is_as(&self, whole: &Whole) -> bool {
        self.is_front && self.written == whole.text().len() && self.end == whole.end
    }

    /// Whether it stopped with a fault, and wrote a front of what the whole work writes: that of a
    /// run ends in the event that it tells.
    pub(crate) fn stopped(&self, fault: JobFault, whole: &Whole) -> bool {
        let is_told = match self.end {
            End::Job(end) => end == Err(CommandFault::Job(fault)),
            End::Run(Ok(_)) => false,
            End::Run(Err(end)) => {
                let is_in = is_in_event(end.event, fault, whole.text(), self.written);
                told_cause(end.cause) == fault && is_in
            }
        };
        self.is_front && is_told
    }
}

/// Writes what goes into the files that a command asks for.
fn write_contents<A: Allocator>(
    command: &Command,
    ending: &Ending<A>,
    out: &mut MemorySink,
) -> Result<(), WriteFault> {
    let Some(made) = &ending.made else {
        return Ok(());
    };
    for (content, file) in made.contents().into_iter().zip(command.files().makes()) {
        if let (Some(content), Some(_)) = (content, file) {
            write_content(content, out)?;
        }
    }
    Ok(())
}

/// Does a task, writes what goes into its files after what it prints, and answers its exit status.
fn do_task<A: Allocator + Copy>(
    alloc: A,
    task: Task<'_>,
    ends: Ends,
    out: &mut MemorySink,
) -> Result<u8, CommandFault> {
    let mut first = ends.source(0, task.first);
    let mut second = ends.source(1, task.second);
    let mut third = ends.source(2, task.third);
    let command = task.command;
    let ending = do_command(alloc, command, &mut first, &mut second, &mut third, out)?;
    let written = write_contents(command, &ending, out);
    let status = ending.status;
    drop(ending);
    written?;
    Ok(status)
}

/// Does a work into a room, and returns what it did beside what is to be written. The allocator is
/// the same for each work, so that each job is built once.
fn do_in_room(
    alloc: Global,
    work: Work<'_>,
    ends: Ends,
    whole: &[u8],
    room: &mut MemorySink,
) -> Did {
    let memory = Refusing::new(alloc, ends.refused);
    let end = match work {
        Work::Job(task) => End::Job(do_task(&memory, task, ends, room)),
        Work::Run(text) => End::Run(run_text(&memory, text, ends, room)),
        Work::Checked(task, limits) => End::Run(run_after_yes(&memory, task, limits, ends, room)),
    };
    Did {
        end,
        written: room.taken().len(),
        is_front: whole.starts_with(room.taken()),
        came: memory.has_refused(),
    }
}

/// What a work does, beside what is to be written.
pub(crate) fn done(alloc: Global, work: Work<'_>, ends: Ends, whole: &[u8]) -> Did {
    match MemorySink::new(alloc, ends.room) {
        Ok(mut room) => do_in_room(alloc, work, ends, whole, &mut room),
        Err(_) => Did {
            end: End::Job(Err(CommandFault::Job(JobFault::NoMemory))),
            written: 0,
            is_front: false,
            came: false,
        },
    }
}
