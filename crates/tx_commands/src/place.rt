// A file of a command, by its place.
use crate::files::Files;

/// A file of a command, by its place among those that it reads or makes, or standard output.
#[derive(Clone, Copy)]
pub enum Place {
    Read(usize),
    Made(usize),
    Output,
}

impl Place {
    /// Its name.
    pub fn name<'n>(self, files: &Files<'n>) -> &'n str {
        let name = match self {
            Place::Read(index) => files.reads.get(index).copied().flatten(),
            Place::Made(index) => files.makes().get(index).copied().flatten(),
            Place::Output => None,
        };
        name.unwrap_or("standard output")
    }
}
