// The files that a command makes.
use crate::ends::Output;
use crate::folder::Folder;
use crate::new_file::NewFile;
use crate::stop::Stop;
use crate::targets::{Target, Targets};
use std::alloc::Allocator;
use std::io::Write;
use tx_commands::Place;
use tx_files::{Content, Made, write_content};
use tx_jobs::JobFault;

/// Makes the files that are named, one after another, of what was made for them.
pub(crate) fn write_files<A: Allocator + Copy, F: Folder, O: Write + Drop>(
    alloc: A,
    made: &Made<A>,
    targets: &Targets<'_>,
    folder: &F,
    report: &Output<O, A>,
) -> Result<(), Stop> {
    let contents = made.contents();
    for i in 0..3usize {
        if let Some(content) = contents[i] {
            if let Some(target) = targets.get(i, folder)? {
                write_file(alloc, content, target, folder, report)?;
            }
        }
    }
    Ok(())
}

/// Once the report is out, makes the file of this name: whole, or not at all.
fn write_file<A: Allocator + Copy, F: Folder, O: Write + Drop>(
    alloc: A,
    content: Content<'_, A>,
    target: Target<'_>,
    folder: &F,
    report: &Output<O, A>,
) -> Result<(), Stop> {
    report.let_out()?;
    let mut file = NewFile::new(folder, target);
    match write_to(alloc, content, target.place(), &mut file) {
        Ok(()) => match file.finish() {
            Ok(()) => Ok(()),
            Err(error) => Err(Stop::Write(target.place(), error)),
        },
        Err(stop) => {
            file.give_up();
            Err(stop)
        }
    }
}

/// Writes what a file holds, once there is room for its output.
fn write_to<A: Allocator + Copy, W: Write + Drop>(
    alloc: A,
    content: Content<'_, A>,
    place: Place,
    file: W,
) -> Result<(), Stop> {
    let output = Output::new(alloc, file)?;
    let written = write_content(content, &mut output.sink());
    if output.let_out().is_ok() && written.is_ok() {
        return Ok(());
    }
    match output.take_failure() {
        Some(error) => Err(Stop::Write(place, error)),
        None => Err(Stop::from(JobFault::Write)),
    }
}
