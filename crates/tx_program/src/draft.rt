// Files of the machine that are made whole or not at all.
use std::fs::{File, OpenOptions};
use std::io::Write;
use std::{fs, io};

/// How many names are tried for a file beside the one that is to be made.
const TRIES: u32 = 100;

/// A file of the machine that is being made.
#[derive(Drop)]
pub struct Draft {
    file: File,
    /// Where it is until it is whole. What is no regular file, as a device or a pipe, is
    /// written to at once, and so is what the program has open already.
    names: Option<Names>,
}

/// The names of a file until it is whole.
#[derive(Drop)]
struct Names {
    /// The name of a new file in the same folder.
    beside: String,
    /// The name that it gets.
    name: String,
}

/// Whether a name is one of what the program has open, as standard output.
pub(crate) fn is_open_already(name: &str) -> bool {
    name == "/dev/stdout"
        || name == "/dev/stderr"
        || name.starts_with("/dev/fd/")
        || name.starts_with("/proc/self/fd/")
}

impl Draft {
    /// Begins to make a file. A file that cannot be written to is not replaced. What the program
    /// has open already is not replaced either: it is written to at its end.
    pub(crate) fn begin(rt: &HostRuntime, name: &str) -> io::Result<Draft> {
        if is_open_already(name) {
            let file = OpenOptions::new().append(true).open(rt, name)?;
            return Ok(Draft { file, names: None });
        }
        match OpenOptions::new().write(true).open(rt, name) {
            Ok(old) => Draft::in_place_of(rt, old, name),
            Err(e) if e.kind() == io::ErrorKind::NotFound => Draft::beside(rt, name),
            Err(e) => Err(e),
        }
    }

    /// Begins a file that is to take the place of an old one, and has its permissions. A link to
    /// the old one stays one.
    fn in_place_of(rt: &HostRuntime, old: File, name: &str) -> io::Result<Draft> {
        let metadata = old.metadata()?;
        if !metadata.is_file() {
            return Ok(Draft {
                file: old,
                names: None,
            });
        }
        drop(old);
        let name = fs::canonicalize(rt, name)?;
        let draft = Draft::beside(rt, name.as_str())?;
        match draft.file.set_permissions(metadata.permissions()) {
            Ok(()) => Ok(draft),
            Err(e) => {
                draft.give_up(rt);
                Err(e)
            }
        }
    }

    /// Begins a new file beside a name, which is that of no file yet.
    fn beside(rt: &HostRuntime, name: &str) -> io::Result<Draft> {
        let name = String::from_str(rt.alloc(), name)?;
        for i in 1..=TRIES {
            let beside = format!(in rt.alloc(); "{name}.{i}.new")?;
            match File::create_new(rt, beside.as_str()) {
                Ok(file) => {
                    return Ok(Draft {
                        file,
                        names: Some(Names { beside, name }),
                    });
                }
                Err(e) if e.kind() == io::ErrorKind::AlreadyExists => {}
                Err(e) => return Err(e),
            }
        }
        Err(io::Error::from(io::ErrorKind::AlreadyExists))
    }

    /// Gives the file its name, once all of it is on the disk. Where that fails, it is given up.
    pub(crate) fn finish(self, rt: &HostRuntime) -> io::Result<()> {
        match self.put(rt) {
            Ok(()) => Ok(()),
            Err(e) => {
                self.give_up(rt);
                Err(e)
            }
        }
    }

    fn put(&self, rt: &HostRuntime) -> io::Result<()> {
        match &self.names {
            Some(names) => {
                self.file.sync_all()?;
                fs::rename(rt, names.beside.as_str(), names.name.as_str())
            }
            None => Ok(()),
        }
    }

    /// Removes what is beside the name.
    pub(crate) fn give_up(self, rt: &HostRuntime) {
        if let Some(names) = &self.names {
            let _ = fs::remove_file(rt, names.beside.as_str());
        }
    }
}

impl Write for Draft {
    fn write(&mut self, bytes: &[u8]) -> io::Result<usize> {
        self.file.write(bytes)
    }

    fn flush(&mut self) -> io::Result<()> {
        self.file.flush()
    }
}
