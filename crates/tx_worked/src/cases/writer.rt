// Writers that are watched.
use crate::cases::log::Log;
use std::io;
use std::io::Write;
use tx_program::Draft;

/// A writer whose writes and flushes are told, which fails when it has taken so many bytes, and of
/// which a flush may fail.
#[derive(Drop)]
pub struct Writer<'a> {
    /// Where the bytes go; those of a standard end are only told.
    pub file: Option<Draft>,
    pub name: String,
    pub log: &'a Log,
    pub room: usize,
    /// The flush that fails, or 0.
    pub fails: u64,
    pub flushes: u64,
    /// The write or flush that is interrupted, or 0.
    pub interrupted: u64,
    pub calls: u64,
}

impl<'a> Writer<'a> {
    /// Counts a call, and tells it where it is interrupted.
    fn interrupts(&mut self, what: &str) -> io::Result<()> {
        self.calls = self.calls.saturating_add(1);
        if self.calls != self.interrupted {
            return Ok(());
        }
        self.log.tell(what, self.name.as_str());
        self.log.tell("interrupted", self.name.as_str());
        Err(io::Error::from(io::ErrorKind::Interrupted))
    }
}

impl<'a> Write for Writer<'a> {
    fn write(&mut self, bytes: &[u8]) -> io::Result<usize> {
        self.interrupts("write")?;
        let name = self.name.as_str();
        let n = bytes.len().min(self.room);
        if n == 0 {
            self.log.tell("write", name);
            self.log.tell("fails", name);
            return Err(io::Error::from(io::ErrorKind::Other));
        }
        let n = match &mut self.file {
            Some(file) => file.write(&bytes[..n])?,
            None => n,
        };
        self.room = self.room.saturating_sub(n);
        if let Some(taken) = bytes.get(..n) {
            self.log.tell_bytes(name, taken);
        }
        Ok(n)
    }

    fn flush(&mut self) -> io::Result<()> {
        self.interrupts("flush")?;
        let name = self.name.as_str();
        self.log.tell("flush", name);
        self.flushes = self.flushes.saturating_add(1);
        if self.flushes == self.fails {
            self.log.tell("fails", name);
            return Err(io::Error::from(io::ErrorKind::Other));
        }
        match &mut self.file {
            Some(file) => file.flush(),
            None => Ok(()),
        }
    }
}
