// A source and a sink that are watched.
use crate::cases::Log;
use tx_text::{MemorySource, ReadFault, Sink, Source, WriteFault};

/// A source whose calls are told: for how many bytes each asks, which it gives, and how many.
#[derive(Drop)]
pub(crate) struct WatchedSource<'a> {
    pub source: MemorySource<'a>,
    pub log: &'a Log,
}

impl<'a> Source for WatchedSource<'a> {
    ghost use Rattle.std.specs.Prelude.{Some};

    ghost rest = { λ s. Some s.source.rest };

    ghost failed = { λ s. s.source.failed };

    ghost called = { λ _ _ _ _. Unit {0} };

    fn read(&mut self, buf: &mut [u8]) -> Result<usize, ReadFault> {
        self.log.tell_number("read", buf.len() as u64);
        let read = self.source.read(buf);
        match read {
            Ok(n) => {
                self.log.tell_bytes("in", &buf[..n]);
                self.log.tell_number("bytes", n as u64);
            }
            Err(ReadFault) => self.log.tell("fails", "in"),
        }
        read
    }
}

/// A sink that takes all, and whose calls are told.
#[derive(Drop)]
pub(crate) struct WatchedSink<'a> {
    pub log: &'a Log,
}

impl<'a> Sink for WatchedSink<'a> {
    ghost use Rattle.std.specs.Prelude.{None, false};

    ghost taken = { λ _. None };

    ghost failed = { λ _. false };

    ghost called = { λ _ _ _ _. Unit {0} };

    fn write(&mut self, bytes: &[u8]) -> Result<usize, WriteFault> {
        self.log.tell_bytes("out", bytes);
        Ok(bytes.len())
    }

    fn has_failed(&self) -> bool {
        false
    }
}
