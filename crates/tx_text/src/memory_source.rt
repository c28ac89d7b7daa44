// A source over memory that shows its bytes, and fails where it is asked to.
ghost use Rattle.std.specs.Prelude.{◌≡◌, ◌<◌, false};
ghost use Rattle.tx_text.specs.inner.Memory.{is_due, sooner};

use crate::source::{ReadFault, Source};
use std::marker::Model;

/// A source for tests: the bytes of a slice, at most `piece` a call. The call `fails_at`, counted
/// from 1, fails, and so does each after it.
#[derive(Drop)]
pub struct MemorySource<'a> {
    rest: &'a [u8],
    piece: usize,
    fails_in: Option<u64>,
    failed: bool,
}

impl<'a> Model for MemorySource<'a> {
    ghost use Rattle.std.specs.Prelude.{◌<◌};
    ghost use Rattle.tx_text.specs.inner.Memory.{Supply};

    ghost Value = { Supply };

    ghost view = { λ s. record {
      rest = s.rest.now;
      piece = s.piece;
      fails_in = s.fails_in;
      failed = s.failed;
    } };

    ghost invariant = { λ s. 0 < s.piece };
}

impl<'a> MemorySource<'a> {
    /// A source of these bytes that has not been called. A piece is at least one byte.
    pub fn new(text: &'a [u8], piece: usize, fails_at: Option<u64>) -> MemorySource<'a>
        requires { 0 < piece }
        ensures { result ≡ record {
          rest = text.now;
          piece = piece;
          fails_in = fails_at;
          failed = false;
        } }
    {
        MemorySource {
            rest: text,
            piece,
            fails_in: fails_at,
            failed: false,
        }
    }
}

/// Counts a call, and returns whether it is the one that fails.
fn counted(fails_in: &mut Option<u64>) -> bool
    ensures due { result ≡ is_due fails_in.old }
    ensures counts { fails_in.new ≡ sooner fails_in.old }
{
    match *fails_in {
        None => false,
        Some(n) => {
            *fails_in = Some(n.saturating_sub(1));
            n == 1
        }
    }
}

impl<'a> Source for MemorySource<'a> {
    ghost use Rattle.std.specs.Prelude.{◌≡◌, Some};
    ghost use Rattle.tx_text.specs.inner.Memory.{supply_gives, supply_leaves};

    ghost rest = { λ s. Some s.rest };

    ghost failed = { λ s. s.failed };

    ghost called = { λ n r a b. (r ≡ supply_gives a n) × (b ≡ supply_leaves a n) };

    fn read(&mut self, buf: &mut [u8]) -> Result<usize, ReadFault> {
        let due = counted(&mut self.fails_in);
        if self.failed || due {
            self.failed = true;
            return Err(ReadFault);
        }
        let n = buf.len().min(self.piece).min(self.rest.len());
        let (front, back) = self.rest.split_at(n);
        buf[..n].copy_from_slice(front);
        self.rest = back;
        Ok(n)
    }
}
