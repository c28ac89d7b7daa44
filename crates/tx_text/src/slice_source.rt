// A text in memory as a source that never fails.
ghost use Rattle.std.specs.Prelude.{◌≡◌, ◌^◌, ◌<◌, length};
ghost use Rattle.tx_text.specs.Slices.{SlicesAreReadWhole};

use crate::source::{ReadFault, Source};
use std::marker::Model;

/// A source over a slice: its bytes that are still to come.
#[derive(Drop)]
pub struct SliceSource<'a> {
    rest: &'a [u8],
}

impl<'a> Model for SliceSource<'a> {
    ghost use Rattle.std.specs.Prelude.{ℕ, List};

    ghost Value = { List ℕ };

    ghost view = { λ s. s.rest.now };
}

impl<'a> SliceSource<'a> {
    /// A source of all these bytes.
    pub fn new(text: &'a [u8]) -> SliceSource<'a>
        ensures rest { result ≡ text.now }
        ensures short { length text.now < 2 ^ 63 }
    {
        SliceSource { rest: text }
    }
}

impl<'a> Source for SliceSource<'a> {
    ghost use Rattle.std.specs.Prelude.{Some, false};
    ghost use Rattle.tx_text.specs.Slices.{slice_called};

    ghost rest = { λ s. Some s };

    ghost failed = { λ _. false };

    ghost called = { slice_called };

    fn read(&mut self, buf: &mut [u8]) -> Result<usize, ReadFault> {
        let n = buf.len().min(self.rest.len());
        let (front, back) = self.rest.split_at(n);
        buf[..n].copy_from_slice(front);
        self.rest = back;
        Ok(n)
    }
}

/// A reader over a slice never meets the bound on calls, and none of its calls fails.
pub fn slices_are_read_whole()
    ensures { SlicesAreReadWhole }
{}
