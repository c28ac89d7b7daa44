// std's readers as sources, whose bytes are not seen.
ghost use Rattle.std.specs.Prelude.{◌≡◌, false};

use crate::source::{ReadFault, Source};
use std::io::Read;
use std::marker::Model;

/// A source over a reader of the standard library. Any error of the reader is a failure, and stays
/// one. The calls are counted. It does not show its bytes.
#[derive(Drop)]
pub struct FromRead<R> {
    reader: R,
    calls: u64,
    failed: bool,
}

/// A contract sees how often it was called, and whether a call has failed.
impl<R> Model for FromRead<R> {
    ghost use Rattle.tx_text.specs.ReadCalls.{Reads};

    ghost Value = { Reads };

    ghost view = { λ s. record { calls = s.calls; failed = s.failed } };
}

impl<R: Read> FromRead<R> {
    ghost use Rattle.tx_text.specs.ReadCalls.{TellsWhy};

    /// A source that has not been called.
    #[tactic(auto, using(crate::proofs::ReadCalls::tells_why))]
    pub fn new(reader: R) -> FromRead<R>
        ensures begins { result ≡ record { calls = 0; failed = false } }
        ensures why { TellsWhy result }
    {
        FromRead {
            reader,
            calls: 0,
            failed: false,
        }
    }

    /// How often it was called, up to the greatest number of a `u64`.
    pub fn calls(&self) -> u64
        ensures { result ≡ self.now.calls }
    {
        self.calls
    }
}

impl<R: Read> Source for FromRead<R> {
    ghost use Rattle.std.specs.Prelude.{None};
    ghost use Rattle.tx_text.specs.ReadCalls.{counted};

    ghost rest = { λ _. None };

    ghost failed = { λ s. s.failed };

    ghost called = { counted };

    fn read(&mut self, buf: &mut [u8]) -> Result<usize, ReadFault> {
        self.calls = self.calls.saturating_add(1);
        if !self.failed {
            if let Ok(n) = self.reader.read(buf) {
                return Ok(n);
            }
        }
        self.failed = true;
        Err(ReadFault)
    }
}
