// The bytes that were read ahead.
ghost use Rattle.std.specs.Prelude.{◌≡◌, ◌≤◌, [], take, drop, length, is_err, IfOk, OnErr};
ghost use Rattle.std.specs.Io.KnownBytes.{prepend_known, IsAtEnd};
ghost use Rattle.tx_jobs.specs.inner.Reading.{input_answer};

use std::marker::Model;
use tx_text::{ReadFault, Source};

/// The bytes of a piece that were read and not given on yet.
#[derive(Drop)]
pub(crate) struct Held {
    bytes: [u8; 4096],
    from: usize,
    to: usize,
}

impl Model for Held {
    ghost use Rattle.std.specs.Prelude.{ℕ, ◌-◌, List, take, drop};

    ghost Value = { List ℕ };

    ghost view = { λ h. take (h.to - h.from) (drop h.from h.bytes) };

    ghost use Rattle.tx_jobs.specs.inner.Held.{IsHeld};

    ghost invariant = { IsHeld };
}

impl Held {
    pub(crate) fn new() -> Held
        ensures { result ≡ [] }
    {
        Held {
            bytes: [0; 4096],
            from: 0,
            to: 0,
        }
    }

    pub(crate) fn bytes(&self) -> &[u8]
        ensures bytes { result.now ≡ self.now }
        ensures short { length result.now ≤ 4096 }
    {
        &self.bytes[self.from..self.to]
    }

    /// Gives the first bytes on, so many.
    pub(crate) fn give(&mut self, n: usize, buf: &mut [u8])
        requires held { n ≤ length self.old }
        requires room { n ≤ length buf.old }
        ensures given { take n buf.new ≡ take n self.old }
        ensures left { self.new ≡ drop n self.old }
    {
        buf[..n].copy_from_slice(&self.bytes()[..n]);
        self.from += n;
    }

    /// Reads the next piece.
    pub(crate) fn fill<R: Source>(&mut self, source: &mut R) -> Result<(), ReadFault>
        requires { self.old ≡ [] }
        ensures bytes { R.rest source.old ≡ prepend_known self.new (R.rest source.new) }
        ensures end { IfOk result (λ _. self.new ≡ [] → IsAtEnd (R.rest source.new)) }
        ensures none { OnErr result (self.new ≡ []) }
        ensures failed { R.failed source.new ≡ is_err result }
        ensures call { R.called 4096 (input_answer result self.new) source.old source.new }
    {
        self.from = 0;
        self.to = 0;
        self.to = source.read(&mut self.bytes)?;
        Ok(())
    }
}
