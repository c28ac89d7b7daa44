// Readers that are watched.
ghost use Rattle.std.specs.Io.{ReadsAtMost};

use crate::cases::log::Log;
use std::fs::File;
use std::io;
use std::io::{IsTerminal, Read};

/// A file whose reads are told, of which one may fail.
#[derive(Drop)]
pub struct Reader<'a> {
    pub file: File,
    pub name: String,
    pub log: &'a Log,
    pub piece: usize,
    /// The read that fails, or 0.
    pub fails: u64,
    /// The read that is interrupted, or 0.
    pub interrupted: u64,
    /// Whether it is told to be a terminal.
    pub is_terminal: bool,
    pub reads: u64,
}

impl<'a> Reader<'a> {
    fn read_piece(&mut self, buf: &mut [u8]) -> io::Result<usize>
        ensures { ReadsAtMost result buf.new }
    {
        self.reads = self.reads.saturating_add(1);
        if self.reads == self.fails {
            return Err(io::Error::from(io::ErrorKind::Other));
        }
        if self.reads == self.interrupted {
            return Err(io::Error::from(io::ErrorKind::Interrupted));
        }
        let room = buf.len().min(self.piece);
        self.file.read(&mut buf[..room])
    }
}

impl<'a> Read for Reader<'a> {
    fn read(&mut self, buf: &mut [u8]) -> io::Result<usize> {
        self.log.tell("read", self.name.as_str());
        let read = self.read_piece(buf);
        match &read {
            Ok(n) => self.log.tell_number("bytes", *n as u64),
            Err(why) if why.kind() == io::ErrorKind::Interrupted => {
                self.log.tell("interrupted", self.name.as_str())
            }
            Err(_) => self.log.tell("fails", self.name.as_str()),
        }
        read
    }
}

impl<'a> IsTerminal for Reader<'a> {
    fn is_terminal(&self) -> bool {
        self.is_terminal
    }
}
