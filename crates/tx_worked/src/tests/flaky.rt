// A reader and writer that fails.
use std::io;
use std::io::{ErrorKind, Read, Write};

/// A reader that gives one byte a call, and a writer that takes at most so many. Both fail at the
/// third call, in this way.
#[derive(Drop)]
pub(crate) struct Flaky {
    pub takes: usize,
    pub calls: u8,
    pub why: ErrorKind,
}

impl Flaky {
    pub fn new(takes: usize, why: ErrorKind) -> Flaky {
        Flaky {
            takes,
            calls: 0,
            why,
        }
    }
}

impl Read for Flaky {
    fn read(&mut self, buf: &mut [u8]) -> io::Result<usize> {
        self.calls = self.calls.saturating_add(1);
        if self.calls == 3 || buf.is_empty() {
            return Err(io::Error::from(self.why));
        }
        buf[0] = b'A';
        Ok(1)
    }
}

impl Write for Flaky {
    fn write(&mut self, buf: &[u8]) -> io::Result<usize> {
        self.calls = self.calls.saturating_add(1);
        if self.calls == 3 {
            return Err(io::Error::from(self.why));
        }
        Ok(buf.len().min(self.takes))
    }

    fn flush(&mut self) -> io::Result<()> {
        Ok(())
    }
}
