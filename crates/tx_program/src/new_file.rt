// A file to be made.
use crate::folder::Folder;
use crate::targets::Target;
use std::io;
use std::io::Write;

/// A file that is begun when the first bytes go to it.
#[derive(Drop)]
pub(crate) struct NewFile<'a, F: Folder> {
    folder: &'a F,
    name: &'a str,
    file: Option<F::Output>,
}

impl<'a, F: Folder> NewFile<'a, F> {
    pub(crate) fn new(folder: &'a F, target: Target<'a>) -> NewFile<'a, F> {
        NewFile {
            folder,
            name: target.name(),
            file: None,
        }
    }

    /// Gives the file, which is whole, its name.
    pub(crate) fn finish(self) -> io::Result<()> {
        let NewFile { folder, file, .. } = self;
        match file {
            Some(file) => folder.finish(file),
            None => Ok(()),
        }
    }

    /// Gives the file up.
    pub(crate) fn give_up(self) {
        let NewFile { folder, file, .. } = self;
        if let Some(file) = file {
            folder.give_up(file);
        }
    }
}

impl<'a, F: Folder> Write for NewFile<'a, F> {
    fn write(&mut self, bytes: &[u8]) -> io::Result<usize> {
        match &mut self.file {
            Some(file) => file.write(bytes),
            None => {
                let mut file = self.folder.begin(self.name)?;
                let written = file.write(bytes);
                self.file = Some(file);
                written
            }
        }
    }

    fn flush(&mut self) -> io::Result<()> {
        match &mut self.file {
            Some(file) => file.flush(),
            None => Ok(()),
        }
    }
}
