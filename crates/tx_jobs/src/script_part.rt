// The script of an input of two texts.
ghost use Rattle.std.specs.Prelude.{◌≡◌};

use crate::ahead::Ahead;
use tx_text::{ReadFault, Source};

/// The script of an input whose plan was read, as a source: the rest of the piece that was read,
/// and then the input.
#[derive(Drop)]
pub(crate) struct ScriptPart<'a, R> {
    input: &'a mut R,
    ahead: &'a mut Ahead,
}

impl<'a, R: Source> ScriptPart<'a, R> {
    pub(crate) fn new(input: &'a mut R, ahead: &'a mut Ahead) -> ScriptPart<'a, R>
        ensures input { result.input ≡ input.entry }
        ensures ahead { result.ahead ≡ ahead.entry }
    {
        ScriptPart { input, ahead }
    }
}

impl<'a, R: Source> Source for ScriptPart<'a, R> {
    ghost use Rattle.tx_jobs.specs.inner.Reading.{bytes_left, ScriptCall};

    ghost rest = { bytes_left R.rest };

    ghost failed = { λ s. s.ahead.now.failed };

    ghost called = { ScriptCall R.rest R.failed R.called };

    fn read(&mut self, buf: &mut [u8]) -> Result<usize, ReadFault> {
        if self.ahead.failed {
            return Err(ReadFault);
        }
        self.ahead.refill(self.input)?;
        let n = self.ahead.held.bytes().len().min(buf.len());
        self.ahead.held.give(n, buf);
        Ok(n)
    }
}
