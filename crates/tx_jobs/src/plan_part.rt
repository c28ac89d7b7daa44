// The plan of an input of two texts.
ghost use Rattle.std.specs.Prelude.{◌≡◌};
ghost use Rattle.tx_jobs.specs.declared.seen.Seen.TheVariants.{Blanks};

use crate::ahead::Ahead;
use crate::seen::Seen;
use tx_text::{ReadFault, Source};

/// The plan of an input, as a source that ends after the first line whose one word is END.
#[derive(Drop)]
pub(crate) struct PlanPart<'a, R> {
    input: &'a mut R,
    ahead: &'a mut Ahead,
    seen: Seen,
}

impl<'a, R: Source> PlanPart<'a, R> {
    /// The plan of an input, where nothing of it was given yet.
    pub(crate) fn new(input: &'a mut R, ahead: &'a mut Ahead) -> PlanPart<'a, R>
        ensures input { result.input ≡ input.entry }
        ensures ahead { result.ahead ≡ ahead.entry }
        ensures seen { result.seen ≡ Blanks }
    {
        PlanPart {
            input,
            ahead,
            seen: Seen::Blanks,
        }
    }
}

impl<'a, R: Source> Source for PlanPart<'a, R> {
    ghost use Rattle.tx_jobs.specs.inner.Reading.{plan_rest, PlanCall};

    ghost rest = { plan_rest R.rest };

    ghost failed = { λ s. s.ahead.now.failed };

    ghost called = { PlanCall R.rest R.failed R.called };

    fn read(&mut self, buf: &mut [u8]) -> Result<usize, ReadFault> {
        if self.ahead.failed {
            return Err(ReadFault);
        }
        if self.seen.is_over() {
            return Ok(0);
        }
        self.ahead.refill(self.input)?;
        let bytes = self.ahead.held.bytes();
        let n = self.seen.take(&bytes[..bytes.len().min(buf.len())]);
        self.ahead.held.give(n, buf);
        Ok(n)
    }
}
