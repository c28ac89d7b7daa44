// What a command reads.
use crate::folder::Folder;
use crate::stop::Stop;
use std::io;
use std::io::Read;
use tx_commands::{Place, STANDARD_INPUT};
use tx_jobs::JobFault;

/// What a command reads: standard input, or a file.
pub(crate) enum Input<I: Read + Drop, R: Read + Drop> {
    Standard(I),
    File(R),
}

impl<I: Read + Drop, R: Read + Drop> Drop for Input<I, R> {
    fn drop(self) {
        match self {
            Input::Standard(input) => drop(input),
            Input::File(file) => drop(file),
        }
    }
}

impl<I: Read + Drop, R: Read + Drop> Read for Input<I, R> {
    fn read(&mut self, buf: &mut [u8]) -> io::Result<usize> {
        match self {
            Input::Standard(input) => input.read(buf),
            Input::File(file) => file.read(buf),
        }
    }
}

/// The files that a command reads, which are open.
#[derive(Drop)]
pub(crate) struct Inputs<I: Read + Drop, R: Read + Drop> {
    pub first: Option<Input<I, R>>,
    pub second: Option<Input<I, R>>,
    pub third: Option<Input<I, R>>,
}

impl<I: Read + Drop, R: Read + Drop> Inputs<I, R> {
    /// Opens the files of these names, the first one first.
    pub(crate) fn open<F: Folder<Input = R>>(
        names: [Option<&str>; 3],
        folder: &F,
        standard: I,
    ) -> Result<Inputs<I, R>, Stop> {
        let mut standard = Some(standard);
        Ok(Inputs {
            first: open(0, names[0], folder, &mut standard)?,
            second: open(1, names[1], folder, &mut standard)?,
            third: open(2, names[2], folder, &mut standard)?,
        })
    }
}

/// Opens a file, or takes standard input where `-` is named, which can be read once.
fn open<F: Folder, I: Read + Drop>(
    index: usize,
    name: Option<&str>,
    folder: &F,
    standard: &mut Option<I>,
) -> Result<Option<Input<I, F::Input>>, Stop> {
    match name {
        Some(STANDARD_INPUT) => match standard.take() {
            Some(input) => Ok(Some(Input::Standard(input))),
            None => Err(Stop::from(JobFault::Read)),
        },
        Some(name) => match folder.open(name) {
            Ok(file) => Ok(Some(Input::File(file))),
            Err(error) => Err(Stop::Read(Place::Read(index), error)),
        },
        None => Ok(None),
    }
}
