// std's writers as sinks, whose bytes are not seen.
ghost use Rattle.std.specs.Prelude.{◌≡◌, false};

use crate::sink::{Sink, WriteFault};
use std::io::Write;
use std::marker::Model;

/// A sink over a writer of the standard library. Any error of the writer is a failure, and so is a
/// call that takes nothing; a failure stays one. It does not show its bytes.
#[derive(Drop)]
pub struct ToWrite<W> {
    writer: W,
    failed: bool,
}

/// A contract sees whether a call has failed.
impl<W> Model for ToWrite<W> {
    ghost use Rattle.std.specs.Prelude.{Bool};

    ghost Value = { Bool };

    ghost view = { λ s. s.failed };
}

impl<W: Write> ToWrite<W> {
    /// A sink that has not been called.
    pub fn new(writer: W) -> ToWrite<W>
        ensures { result ≡ false }
    {
        ToWrite {
            writer,
            failed: false,
        }
    }
}

impl<W: Write> Sink for ToWrite<W> {
    ghost use Rattle.std.specs.Prelude.{None};

    ghost taken = { λ _. None };

    ghost failed = { λ s. s };

    ghost called = { λ _ _ _ _. Unit {0} };

    fn write(&mut self, bytes: &[u8]) -> Result<usize, WriteFault> {
        if !self.failed {
            if let Ok(n) = self.writer.write(bytes) {
                if n > 0 {
                    return Ok(n);
                }
            }
        }
        self.failed = true;
        Err(WriteFault)
    }

    fn has_failed(&self) -> bool {
        self.failed
    }
}
