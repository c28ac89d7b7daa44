// Plays cases of texts by their kinds.
use crate::cases::{
    Ends, FULL_ROOM, Head, Mode, Task, Told, command_of, is_command, tell, tell_broken, tell_stop,
    two_texts,
};
use crate::checked::play_certified;
use crate::jobs::{
    End, Whole, Work, count_calls, done, list_prefixes, try_ends, try_pieces, try_refusals,
};
use crate::joined::play_joined;
use crate::run_laws::play_run;
use crate::runs::{Over, Script};
use crate::tests::play_call;
use crate::written::{play_cert, play_plan};
use memchr::memmem;
use std::alloc::Global;
use tx_commands::{Command, RunRequest};
use tx_files::{CommandFault, write_command_fault};
use tx_plan::Limits;

/// Plays a case of texts by its kind: as a job, or by writing and reading back, or over both
/// networks, or by calls of the crates below the jobs.
pub(crate) fn play_texts(alloc: Global, head: Head<'_>, texts: &[u8], out: &mut Told) {
    let (first, second) = two_texts(texts);
    if is_command(head.word) {
        return play_command(alloc, head, first, second, out);
    }
    match head.word {
        b"both" => play_both(alloc, head, texts, out),
        b"plan" => play_plan(alloc, texts, out),
        b"cert" => tell_stop(play_cert(alloc, first, second, out), out),
        b"joined" => tell_stop(play_joined(alloc, first, second, out), out),
        b"certified" | b"rooms" | b"calls" | b"stopped-writer" | b"starting" => {
            play_over_both(alloc, head, Script::opening(first, second), out)
        }
        _ => play_call(alloc, head, texts, out),
    }
}

/// Plays the kinds that drive events or run a script, over the plain network and then over the
/// engine, which has to tell the same.
fn play_over_both(alloc: Global, head: Head<'_>, text: Script<'_>, out: &mut Told) {
    let mut plain = Told::new(alloc);
    play_over(alloc, head, text, &mut plain);
    tell(plain.text(), out);
    let mut text = text;
    text.over = Over::Engine;
    let mut engine = Told::new(alloc);
    play_over(alloc, head, text, &mut engine);
    if !engine.is(plain.text()) {
        let bytes = engine.text().len() as u64;
        tell_broken(b"not the same over the engine, bytes", bytes, out);
    }
}

/// Plays such a kind over one of them.
fn play_over(alloc: Global, head: Head<'_>, text: Script<'_>, out: &mut Told) {
    match head.word {
        b"certified" => play_certified(alloc, head.limit_and_spare(), text, out),
        b"stopped-writer" => count_calls(alloc, text, head.numbers().0 as usize, out),
        _ => play_run(alloc, head, text, out),
    }
}

/// Tries that a script writes over the plain network what the job writes over the engine.
fn try_plain(alloc: Global, run: Task<'_>, job: &[u8], out: &mut Told) {
    let text = Script::opening(run.first, run.second);
    let did = done(alloc, Work::Run(text), Ends::pieces(4096), job);
    if !did.is_front || did.written != job.len() {
        let bytes = did.written as u64;
        tell_broken(b"not the same over the plain network, bytes", bytes, out);
    }
}

/// Tries that a run after a check writes without the job what it writes with it, except the NO, and
/// refuses each of its requests for memory.
fn try_checked(alloc: Global, task: Task<'_>, limits: Limits, job: &Whole, out: &mut Told) {
    let work = Work::Checked(task, limits);
    let Ok(whole) = Whole::of(alloc, work, Ends::pieces(7)) else {
        return tell_broken(b"no memory", 0, out);
    };
    let is_denied = job.text().starts_with(b"NO ") && whole.text().is_empty();
    if !is_denied && whole.text() != job.text() {
        tell_broken(
            b"not the same without the job, bytes",
            whole.text().len() as u64,
            out,
        );
    }
    try_refusals(alloc, work, &whole, out);
}

/// Writes what a task wrote, and its fault. That the plan has no such exchange, code or group is
/// told by the exit status alone, since the program reports it with its word.
fn tell_whole(whole: &Whole, out: &mut Told) {
    tell(whole.text(), out);
    let End::Job(Err(fault)) = whole.end else {
        return;
    };
    match fault {
        CommandFault::NoSuchName(_) => {}
        fault => {
            let _ = write_command_fault(&fault, out);
        }
    }
}

/// Tells a task that was done whole, and tries its laws, or plays each front of its last text.
fn play_whole(alloc: Global, task: Task<'_>, whole: &Whole, mode: Mode, out: &mut Told) {
    if let Mode::Once = mode {
        return tell_whole(whole, out);
    }
    if matches!(task.command, Command::Run(RunRequest { checked: None, .. })) {
        try_plain(alloc, task, whole.text(), out);
    }
    if let Mode::Prefixes = mode {
        return list_prefixes(alloc, task, whole, out);
    }
    tell_whole(whole, out);
    try_pieces(alloc, task, whole, out);
    if let Mode::EachEnd = mode {
        try_refusals(alloc, Work::Job(task), whole, out);
        try_ends(alloc, task, whole, out);
        if let Command::Run(
            RunRequest {
                checked: Some((_, limits)),
                ..
            },
        ) = task.command
        {
            try_checked(alloc, task, *limits, whole, out);
        }
    }
}

/// Plays a command over its texts.
fn play_command(alloc: Global, head: Head<'_>, first: &[u8], rest: &[u8], out: &mut Told) {
    match command_of(alloc, head.word, [head.first, head.second, head.third]) {
        Ok(command) => {
            let task = Task::new(head.word, &command, first, rest);
            play_task(alloc, task, head.mode, out)
        }
        Err(_) => tell_broken(b"no command", 0, out),
    }
}

/// Does a task whole, and plays it.
fn play_task(alloc: Global, task: Task<'_>, mode: Mode, out: &mut Told) {
    let ends = match mode {
        Mode::Once => Ends::with_room(FULL_ROOM),
        Mode::Plain | Mode::EachEnd | Mode::Prefixes => Ends::pieces(7),
    };
    match Whole::of(alloc, Work::Job(task), ends) {
        Ok(whole) => play_whole(alloc, task, &whole, mode, out),
        Err(_) => tell_broken(b"no memory", 0, out),
    }
}

/// Plays an input as a pipe, and as a plan and a script, which do the same, and tries the laws.
fn play_both(alloc: Global, head: Head<'_>, input: &[u8], out: &mut Told) {
    // The plan goes up to and with its first line END.
    let (plan, script) = match memmem::find(input, b"\nEND\n") {
        Some(end) => input.split_at(end.saturating_add(5).min(input.len())),
        None => (input, b"".as_slice()),
    };
    let run = Command::Run(RunRequest {
        plan: String::new(alloc),
        script: String::new(alloc),
        checked: None,
    });
    let run = Task::new(b"run", &run, plan, script);
    let pipe = Command::Pipe;
    let pipe = Task::new(b"pipe", &pipe, input, b"");
    play_task(alloc, pipe, head.mode, out);
    let Ok(whole) = Whole::of(alloc, Work::Job(run), Ends::pieces(7)) else {
        return tell_broken(b"no memory", 0, out);
    };
    try_plain(alloc, run, whole.text(), out);
    try_pieces(alloc, run, &whole, out);
    try_pieces(alloc, pipe, &whole, out);
    if let Mode::EachEnd = head.mode {
        try_refusals(alloc, Work::Job(run), &whole, out);
        try_ends(alloc, run, &whole, out);
        play_over_both(alloc, head, Script::opening(plan, script), out);
    }
}
