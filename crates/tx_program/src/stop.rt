// Why the program stopped before a command was done.
ghost use Rattle.std.specs.Prelude.{◌≡◌};
ghost use Rattle.tx_program.specs.Statuses.{status_of_stop};
ghost use Rattle.tx_program.specs.declared.stop.Stop.TheVariants.{Command as CommandFailed};
ghost use Rattle.tx_files.specs.declared.fault.CommandFault.TheVariants.{Job as OfJob};

use crate::kind::TextKind;
use std::alloc::Allocator;
use std::io;
use tx_commands::{Command, FillRequest, Place, STANDARD_INPUT, ThroughRequest, TraceRequest};
use tx_files::{CommandFault, Missing, Named, put_hint, write_command_fault};
use tx_jobs::{JobFault, write_fault};
use tx_lint::write_escaped;
use tx_requests::down_of;
use tx_text::{Sink, WriteFault, finish, put_bytes, put_parts};

/// Why the program stopped before a command was done.
#[derive(Drop)]
pub(crate) enum Stop {
    /// What it does stopped.
    Command(CommandFault),
    /// A file could not be opened or read, and what the system said.
    Read(Place, io::Error),
    /// A file could not be made, or standard output not be written to.
    Write(Place, io::Error),
    /// A file is to be made, and is read or to be made by another name too.
    OneFile(Place, Place),
    /// A file that is to be made is there, and holds another kind of text.
    OtherKind {
        file: Place,
        held: TextKind,
        wanted: TextKind,
    },
}

impl From<CommandFault> for Stop {
    ghost from_gives = { λ fault stop. stop ≡ CommandFailed fault };

    fn from(fault: CommandFault) -> Stop {
        Stop::Command(fault)
    }
}

impl From<JobFault> for Stop {
    ghost from_gives = { λ fault stop. stop ≡ CommandFailed (OfJob fault) };

    fn from(fault: JobFault) -> Stop {
        Stop::Command(CommandFault::Job(fault))
    }
}

impl Stop {
    /// The exit status: that of the command, 3 where an end failed, or 64 where a file must not be
    /// made.
    pub(crate) fn status(&self) -> u8
        ensures { result ≡ status_of_stop self.now }
    {
        match self {
            Stop::Command(fault) => fault.status(),
            Stop::Read(..) | Stop::Write(..) => 3,
            Stop::OneFile(..) | Stop::OtherKind { .. } => 64,
        }
    }
}

/// Writes why a command was not done, in one line.
pub(crate) fn write_stop<A: Allocator, W: Sink>(
    alloc: A,
    stop: &Stop,
    command: &Command,
    sink: &mut W,
) -> Result<(), WriteFault> {
    let files = command.files();
    match stop {
        Stop::Command(fault) => write_with_word(fault, command, sink),
        Stop::Read(..) if has_plain_faults(command) => write_fault(&JobFault::Read, sink),
        Stop::Write(..) if has_plain_faults(command) => write_fault(&JobFault::Write, sink),
        Stop::Read(file, error) => {
            write_failure(alloc, b"read fault", file.name(&files), error, sink)
        }
        Stop::Write(file, error) => {
            write_failure(alloc, b"write fault", file.name(&files), error, sink)
        }
        Stop::OneFile(file, other) => {
            put_bytes(b"telexplan: ", sink);
            write_escaped(file.name(&files).as_bytes(), sink);
            put_bytes(b" and ", sink);
            write_escaped(other.name(&files).as_bytes(), sink);
            put_bytes(b" are one file\n", sink);
            finish(sink)
        }
        Stop::OtherKind { file, held, wanted } => {
            put_bytes(b"telexplan: ", sink);
            write_escaped(file.name(&files).as_bytes(), sink);
            let (held, wanted) = (held.name().as_bytes(), wanted.name().as_bytes());
            put_parts(&[b" is a ", held, b", not a ", wanted, b"\n"], sink);
            finish(sink)
        }
    }
}

/// Whether a failed read or write is told without the file, in the same words each time.
fn has_plain_faults(command: &Command) -> bool {
    matches!(
        command,
        Command::Pipe
            | Command::Run(_)
            | Command::RunTelling(_)
            | Command::Check(_)
            | Command::Codes(_)
            | Command::Audit(_)
    )
}

/// Writes the line of a fault, with the word that was asked for where the plan does not have it.
fn write_with_word<W: Sink>(
    fault: &CommandFault,
    command: &Command,
    sink: &mut W,
) -> Result<(), WriteFault> {
    if let CommandFault::NoSuchName(missing) = fault {
        if let Some(word) = word_asked(command, missing) {
            let named = missing.named.word();
            put_parts(&[b"telexplan: no such ", named, b" in the plan: "], sink);
            write_escaped(word.as_bytes(), sink);
            put_hint(missing, sink);
            return finish(sink);
        }
    }
    write_command_fault(fault, sink)
}

/// The word that the plan does not have.
fn word_asked<'a>(command: &'a Command, missing: &Missing) -> Option<&'a str> {
    match missing.named {
        Named::Exchange => exchange_asked(command),
        Named::Code => code_asked(command, missing.place),
        Named::Group => group_asked(command, missing.place),
        Named::ExchangeOrGroup => name_asked(command),
    }
}

/// The name of the exchange that a command asks for.
fn exchange_asked(command: &Command) -> Option<&str> {
    match command {
        Command::Trace(TraceRequest { exchange, .. })
        | Command::Fill(FillRequest { exchange, .. }) => Some(exchange.as_str()),
        Command::TraceChanges(request) => {
            let (exchange, _) = request.calls.as_ref()?;
            Some(exchange.as_str())
        }
        _ => Some(down_of(command)?.exchange.as_ref()?.as_str()),
    }
}

/// The figures of a code that it asks for, by its place among these.
fn code_asked(command: &Command, place: usize) -> Option<&str> {
    match command {
        Command::Trace(TraceRequest { code, .. }) | Command::Fill(FillRequest { code, .. }) => {
            Some(code.as_str())
        }
        Command::Page(request) => named_at(request.code.as_deref()?, place),
        Command::TraceChanges(request) => {
            let (_, code) = request.calls.as_ref()?;
            Some(code.as_str())
        }
        _ => None,
    }
}

/// The name of a group that it asks for, by its place among these.
fn group_asked(command: &Command, place: usize) -> Option<&str> {
    match command {
        Command::Trace(TraceRequest { down, .. })
        | Command::TraceThrough(ThroughRequest { down, .. })
        | Command::Fill(FillRequest { down, .. }) => named_at(down.as_deref()?, place),
        _ => named_at(down_of(command)?.groups.as_deref()?, place),
    }
}

/// The name that it asks for, of an exchange or a group.
fn name_asked(command: &Command) -> Option<&str> {
    match command {
        Command::TraceThrough(request) => Some(request.name.as_str()),
        _ => None,
    }
}

/// The name at a place of a word that has some, with a comma between two.
fn named_at(names: &str, place: usize) -> Option<&str> {
    names.split(',').nth(place)
}

/// Writes which end failed, and what the system said, unless there is no memory for that.
fn write_failure<A: Allocator, W: Sink>(
    alloc: A,
    fault: &[u8],
    name: &str,
    error: &io::Error,
    sink: &mut W,
) -> Result<(), WriteFault> {
    put_parts(&[b"telexplan: ", fault, b": "], sink);
    if name == STANDARD_INPUT {
        put_bytes(b"standard input", sink);
    } else {
        write_escaped(name.as_bytes(), sink);
    }
    if let Ok(said) = format!(in alloc; "{error}") {
        write_said(said.as_str(), sink);
    }
    put_bytes(b"\n", sink);
    finish(sink)
}

/// Writes what the system said, without the number of the error.
fn write_said<W: Sink>(said: &str, sink: &mut W) {
    put_parts(&[b": ", without_number(said).as_bytes()], sink);
}

fn without_number(said: &str) -> &str {
    match said.split_once(" (os error ") {
        Some((text, _number)) => text,
        None => said,
    }
}
