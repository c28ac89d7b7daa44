// The files that commands name.
use crate::draft::Draft;
use crate::file_id::id_of;
use std::fs::File;
use std::io::{Read, Write};
use std::time::{SystemTime, UNIX_EPOCH};
use std::{env, io};
use tx_commands::FileId;

/// Where files are found by their names.
pub trait Folder {
    /// A file that is read.
    type Input: Read + Drop;

    /// A file that is being made.
    type Output: Write + Drop;

    /// Which file is meant by a name, if that is known: names of one file have one id. `-` means
    /// what standard input was redirected from.
    fn identify(&self, name: &str) -> Option<FileId>;

    /// Opens a file to be read.
    fn open(&self, name: &str) -> io::Result<Self::Input>;

    /// Begins to make a file. What has its name stays as it is until the file is finished.
    fn begin(&self, name: &str) -> io::Result<Self::Output>;

    /// Gives the file, which is whole, its name, in place of what had it.
    fn finish(&self, file: Self::Output) -> io::Result<()>;

    /// Gives the file up. What has its name stays.
    fn give_up(&self, file: Self::Output);

    /// What the clock there says, in seconds since 1970, if it says anything.
    fn moment(&self) -> Option<u64>;
}

/// What stands in for the clock, so that a page can be made anew byte for byte: the moment in the
/// variable that programs agree on for that.
fn moment_given(rt: &HostRuntime) -> Option<u64> {
    match env::var(rt, "SOURCE_DATE_EPOCH") {
        Ok(moment) => moment.parse().ok(),
        Err(_) => None,
    }
}

/// What the clock of the machine says.
fn moment_now(rt: &HostRuntime) -> Option<u64> {
    let now = SystemTime::now(rt).ok()?;
    Some(now.duration_since(UNIX_EPOCH).ok()?.as_secs())
}

/// The files of the machine.
impl Folder for HostRuntime {
    type Input = File;

    type Output = Draft;

    fn identify(&self, name: &str) -> Option<FileId> {
        id_of(self, name)
    }

    fn open(&self, name: &str) -> io::Result<File> {
        File::open(self, name)
    }

    fn begin(&self, name: &str) -> io::Result<Draft> {
        Draft::begin(self, name)
    }

    fn finish(&self, file: Draft) -> io::Result<()> {
        file.finish(self)
    }

    fn give_up(&self, file: Draft) {
        file.give_up(self);
    }

    fn moment(&self) -> Option<u64> {
        moment_given(self).or(moment_now(self))
    }
}
