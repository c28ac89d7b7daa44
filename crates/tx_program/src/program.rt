// The program, from its words to its exit status.
ghost use Rattle.std.specs.Prelude.{◌≡◌, ◌⊎◌};
ghost use Rattle.tx_program.specs.Statuses.{AskNothing, IsRefusedWith, status_of_stop};
ghost use Rattle.tx_commands.specs.Faults.{status_of as words_status};

use crate::ends::{FailedRead, Output};
use crate::folder::Folder;
use crate::input::Inputs;
use crate::new_file::NewFile;
use crate::output_files::write_files;
use crate::stop::{Stop, write_stop};
use crate::targets::{PAGE, Target, Targets};
use crate::tell::{announce_input, tell_words};
use std::alloc::{Allocator, Global};
use std::io;
use std::io::{IsTerminal, Read, Write};
use tx_commands::{Command, Place, WordsFault, read_command};
use tx_files::{CommandFault, Ending};
use tx_jobs::{JobFault, write_fault};
use tx_requests::do_command;
use tx_text::ToWrite;

/// The ends of the program: a folder of files, standard input, standard output and standard error.
#[derive(Drop)]
pub struct Ends<'a, F, I: Drop, O: Drop, E: Drop> {
    pub folder: &'a F,
    pub input: I,
    pub output: O,
    pub errors: E,
}

/// Does what the words after the program's name ask for, and answers the exit status: 0, or 1 after
/// a No (of `codes`: where codes are ambiguous; of `grade` and `survive`: where there is no grade
/// too; of `lint`: after warnings), 2 for a refused text (of `lint`: after faults), 3 for a failed
/// read or write (of help too), 4 when memory runs out, 64 for refused words, for an exchange, a
/// code, a group or a stage that is not there, and where a file must not be made. Without words it
/// reads a plan and then a script, and on a terminal it says so first. A fault is one line on
/// standard error, and refused words are reported by what the library of command lines says. The
/// words are read with `alloc`, and what they ask for is done with `memory`.
pub fn run_words<
    A: Allocator + Copy,
    F: Folder,
    I: Read + IsTerminal + Drop,
    O: Write + Drop,
    E: Write + Drop,
>(alloc: Global, memory: A, words: &[&str], mut ends: Ends<'_, F, I, O, E>) -> u8
    ensures refused { AskNothing words.now → IsRefusedWith words.now result }
{
    if words.is_empty() && ends.input.is_terminal() {
        announce_input(&mut ends.errors);
    }
    match read_command(alloc, words) {
        Ok(mut command) => {
            set_moment(&mut command, ends.folder);
            run_command(memory, &command, ends)
        }
        Err(fault) => refuse_words(&fault, ends),
    }
}

/// Tells a command that shows when it was done what the clock says.
fn set_moment<F: Folder>(command: &mut Command, folder: &F) {
    if let Command::Page(request) = command {
        request.moment = folder.moment();
    }
}

/// Writes why words are refused, and returns the exit status: 3 where a request for help could not
/// be written.
fn refuse_words<F: Folder, I: Read + Drop, O: Write + Drop, E: Write + Drop>(
    fault: &WordsFault,
    ends: Ends<'_, F, I, O, E>,
) -> u8
    ensures { (result ≡ words_status fault.now) ⊎ ((words_status fault.now ≡ 0) × (result ≡ 3)) }
{
    let Ends {
        folder: _,
        input: _,
        mut output,
        mut errors,
    } = ends;
    let told = tell_words(fault, &mut output, &mut errors);
    let status = fault.status();
    if told.is_err() && status == 0 {
        let _ = write_fault(&JobFault::Write, &mut ToWrite::new(errors));
        return JobFault::Write.status();
    }
    status
}

/// Does what a command asks for, and answers the exit status.
pub fn run_command<
    A: Allocator + Copy,
    F: Folder,
    I: Read + Drop,
    O: Write + Drop,
    E: Write + Drop,
>(alloc: A, command: &Command, ends: Ends<'_, F, I, O, E>) -> u8 {
    let Ends {
        folder,
        input,
        output,
        errors,
    } = ends;
    match perform(alloc, command, folder, input, output) {
        Ok(status) => status,
        Err(stop) => tell_stop(alloc, &stop, command, errors),
    }
}

/// Writes why a command was not done, in one line on standard error, and returns the exit status.
fn tell_stop<A: Allocator, E: Write + Drop>(
    alloc: A,
    stop: &Stop,
    command: &Command,
    errors: E,
) -> u8
    ensures { result ≡ status_of_stop stop.now }
{
    let _ = write_stop(alloc, stop, command, &mut ToWrite::new(errors));
    stop.status()
}

/// Opens the files of a command, sees that those to be made take the place of no others, does its
/// job, and lets its output out. Answers the exit status.
pub(crate) fn perform<A: Allocator + Copy, F: Folder, I: Read + Drop, O: Write + Drop>(
    alloc: A,
    command: &Command,
    folder: &F,
    input: I,
    output: O,
) -> Result<u8, Stop> {
    let files = command.files();
    let inputs = Inputs::open(files.reads, folder, input)?;
    let targets = Targets::of(files, folder);
    targets.require_free(folder)?;
    do_into(alloc, command, inputs, &targets, folder, output)
}

/// Does the job of a command over its files, which are open, into the output or into the file of
/// its page.
fn do_into<A: Allocator + Copy, F: Folder, I: Read + Drop, O: Write + Drop>(
    alloc: A,
    command: &Command,
    inputs: Inputs<I, F::Input>,
    targets: &Targets<'_>,
    folder: &F,
    output: O,
) -> Result<u8, Stop> {
    match targets.get(PAGE, folder) {
        Ok(None) => do_and_let_out(
            alloc,
            command,
            inputs,
            targets,
            folder,
            output,
            Place::Output,
        ),
        Ok(Some(target)) => {
            drop(output);
            make_page(alloc, command, inputs, targets, folder, target)
        }
        Err(stop) => Err(stop),
    }
}

/// Makes the file of a page: whole, or not at all.
fn make_page<A: Allocator + Copy, F: Folder, I: Read + Drop>(
    alloc: A,
    command: &Command,
    inputs: Inputs<I, F::Input>,
    targets: &Targets<'_>,
    folder: &F,
    target: Target<'_>,
) -> Result<u8, Stop> {
    let mut file = NewFile::new(folder, target);
    let done = do_and_let_out(
        alloc,
        command,
        inputs,
        targets,
        folder,
        &mut file,
        target.place(),
    );
    match done {
        Ok(status) => match finish_page(file, targets, folder, target.place()) {
            Ok(()) => Ok(status),
            Err(stop) => Err(stop),
        },
        Err(stop) => {
            file.give_up();
            Err(stop)
        }
    }
}

/// Gives the file of a page, which is whole, its name, if that leads to none of the other files
/// now that they are read.
fn finish_page<F: Folder>(
    file: NewFile<'_, F>,
    targets: &Targets<'_>,
    folder: &F,
    place: Place,
) -> Result<(), Stop> {
    match targets.require_still_apart(folder) {
        Ok(()) => match file.finish() {
            Ok(()) => Ok(()),
            Err(error) => Err(Stop::Write(place, error)),
        },
        Err(stop) => {
            file.give_up();
            Err(stop)
        }
    }
}

/// Does the job of a command over its files, which are open, and lets out the output, which is at
/// this place.
fn do_and_let_out<A: Allocator + Copy, F: Folder, I: Read + Drop, O: Write + Drop>(
    alloc: A,
    command: &Command,
    inputs: Inputs<I, F::Input>,
    targets: &Targets<'_>,
    folder: &F,
    output: O,
    place: Place,
) -> Result<u8, Stop> {
    let output = Output::new(alloc, output)?;
    let done = carry_out(alloc, command, inputs, targets, folder, &output);
    let_out(done, &output, place)
}

/// What a command came to, once its output is out. An output that fails is reported before any
/// other fault.
fn let_out<A: Allocator, O: Write + Drop>(
    done: Result<u8, Stop>,
    output: &Output<O, A>,
    place: Place,
) -> Result<u8, Stop> {
    if output.let_out().is_err() {
        drop(done);
        return Err(failed_write(place, output.take_failure()));
    }
    match done {
        Err(Stop::Command(CommandFault::Job(JobFault::Read))) => Err(failed_read(
            output.take_failed_read(),
        )),
        done => done,
    }
}

/// Why the output at a place failed: what the system said, if that is known.
fn failed_write(place: Place, failure: Option<io::Error>) -> Stop {
    match failure {
        Some(error) => Stop::Write(place, error),
        None => Stop::from(JobFault::Write),
    }
}

/// Why a read failed: which file it was of, if that is known.
fn failed_read(failed: Option<FailedRead>) -> Stop {
    match failed {
        Some((index, error)) => Stop::Read(Place::Read(index), error),
        None => Stop::from(JobFault::Read),
    }
}

/// Does the job of a command over its files, which are open, and closes them. Then it makes the
/// files of what the command came to.
fn carry_out<A: Allocator + Copy, F: Folder, I: Read + Drop, O: Write + Drop>(
    alloc: A,
    command: &Command,
    inputs: Inputs<I, F::Input>,
    targets: &Targets<'_>,
    folder: &F,
    output: &Output<O, A>,
) -> Result<u8, Stop> {
    let ending = do_over(alloc, command, inputs, output)?;
    if let Some(made) = &ending.made {
        write_files(alloc, made, targets, folder, output)?;
    }
    Ok(ending.status)
}

/// Does the job of a command over its files, which are open, and closes them.
fn do_over<A: Allocator + Copy, I: Read + Drop, J: Read + Drop, O: Write + Drop>(
    alloc: A,
    command: &Command,
    inputs: Inputs<I, J>,
    output: &Output<O, A>,
) -> Result<Ending<A>, CommandFault> {
    let mut first = output.source(alloc, 0, inputs.first)?;
    let mut second = output.source(alloc, 1, inputs.second)?;
    let mut third = output.source(alloc, 2, inputs.third)?;
    do_command(
        alloc,
        command,
        &mut first,
        &mut second,
        &mut third,
        &mut output.sink(),
    )
}
