// Plays the program at its ends.
use crate::cases::{EndCase, Log, Refusing, What};
use crate::ends::asked::tell_command;
use crate::ends::stage::Stage;
use tx_program::{Command, Folder, WordsFault, read_command, run_command, run_words};

/// Plays a case, and writes what happens.
pub(crate) fn play(rt: &HostRuntime, case: &EndCase<'_>, log: &Log) {
    if case.is_bad {
        log.tell("BROKEN:", "no such case");
    }
    let played = match case.what {
        What::Run => run(rt, case, log),
        What::RunWithout => run_without(rt, case, log),
        What::Read => {
            read(rt, case, log);
            true
        }
    };
    if !played {
        log.tell("BROKEN:", "the case could not be played");
    }
    if let Some(name) = case.shows {
        log.tell_file(rt, name);
    }
}

/// Runs the words of a case. Returns whether its input could be opened. The memory is of the type
/// that can refuse a request, so that the program is built once.
fn run(rt: &HostRuntime, case: &EndCase<'_>, log: &Log) -> bool {
    let Ok(input) = Folder::open(rt, case.input) else {
        return false;
    };
    let memory = Refusing::new(rt.alloc(), 0);
    let stage = Stage { rt, case, log };
    let ends = stage.ends(input);
    let status = run_words(rt.alloc(), &memory, case.words.as_slice(), ends);
    log.tell_number("status", u64::from(status));
    true
}

/// Runs the words of a case with each request for memory refused in turn. Returns whether there was
/// a command, and its input could be opened.
fn run_without(rt: &HostRuntime, case: &EndCase<'_>, log: &Log) -> bool {
    match read_command(rt.alloc(), case.words.as_slice()) {
        Ok(command) => refuse_each(rt, case, &command, log),
        Err(_) => false,
    }
}

/// Runs a command with each of its requests for memory refused in turn, and then with none refused.
/// Returns whether its input could be opened.
fn refuse_each(rt: &HostRuntime, case: &EndCase<'_>, command: &Command, log: &Log) -> bool {
    let mut last = Log::new(rt.alloc());
    let mut played = true;
    for request in 1..100_000u64 {
        let now = Log::new(rt.alloc());
        let came = run_refused(rt, case, command, request, &now);
        tell_change(came, &now, &last, log);
        last = now;
        if came != Some(true) {
            played = came.is_some();
            break;
        }
    }
    played
}

/// Writes what happened, whether a request was refused or none, where the same did not happen last.
fn tell_change(came: Option<bool>, now: &Log, last: &Log, log: &Log) {
    if let Some(refused) = came {
        if !now.is_as(last) {
            let what = if refused {
                "a request refused"
            } else {
                "none refused"
            };
            log.tell("---", what);
            log.tell_all(now);
        }
    }
}

/// Runs a command with one request refused, and returns whether that request came, if the input
/// could be opened.
fn run_refused(
    rt: &HostRuntime,
    case: &EndCase<'_>,
    command: &Command,
    request: u64,
    log: &Log,
) -> Option<bool> {
    let Ok(input) = Folder::open(rt, case.input) else {
        return None;
    };
    let refusing = Refusing::new(rt.alloc(), request);
    let stage = Stage { rt, case, log };
    let status = run_command(&refusing, command, stage.ends(input));
    log.tell_number("status", u64::from(status));
    Some(refusing.has_refused())
}

/// Reads the words of a case, and tells what they give to a command, or why they ask for none.
fn read(rt: &HostRuntime, case: &EndCase<'_>, log: &Log) {
    let read = read_command(rt.alloc(), case.words.as_slice());
    match &read {
        Ok(command) => tell_command(command, log),
        Err(fault) => tell_fault(fault, log),
    }
}

/// Writes why words ask for nothing, and the exit status.
fn tell_fault(fault: &WordsFault, log: &Log) {
    match fault {
        WordsFault::Clap(e) => log.tell_value(&e.kind()),
        WordsFault::Together => log.tell("refused:", "Together"),
        WordsFault::NoMemory => log.tell("refused:", "NoMemory"),
    }
    log.tell_number("status", u64::from(fault.status()));
}
