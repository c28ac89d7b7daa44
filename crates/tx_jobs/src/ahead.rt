// What was read ahead of an input.
ghost use Rattle.std.specs.Prelude.{◌≡◌, [], true, false, is_err, IfOk, OnErr};
ghost use Rattle.std.specs.Io.KnownBytes.{prepend_known, IsAtEnd};
ghost use Rattle.tx_jobs.specs.inner.Reading.{Refilled};

use crate::held::Held;
use tx_text::{ReadFault, Source};

/// What was read ahead of an input, which its two sources share, and whether the input has failed.
#[derive(Drop)]
pub(crate) struct Ahead {
    pub(crate) held: Held,
    pub(crate) failed: bool,
}

impl Ahead {
    /// Nothing was read ahead yet.
    pub(crate) fn new() -> Ahead
        ensures held { result.held ≡ [] }
        ensures failed { result.failed ≡ false }
    {
        Ahead {
            held: Held::new(),
            failed: false,
        }
    }

    /// Reads the next piece where the last one was given whole.
    pub(crate) fn refill<R: Source>(&mut self, input: &mut R) -> Result<(), ReadFault>
        requires { self.old.failed ≡ false }
        ensures bytes { prepend_known self.new.held (R.rest input.new)
            ≡ prepend_known self.old.held (R.rest input.old) }
        ensures end { IfOk result (λ _. self.new.held ≡ [] → IsAtEnd (R.rest input.new)) }
        ensures kept { OnErr result (self.new.held ≡ self.old.held) }
        ensures call { Refilled R.called result self.old self.new input.old input.new }
        ensures mark { self.new.failed ≡ is_err result }
        ensures fails { OnErr result (R.failed input.new ≡ true) }
    {
        if !self.held.bytes().is_empty() {
            return Ok(());
        }
        let read = self.held.fill(input);
        self.failed = read.is_err();
        read
    }
}
