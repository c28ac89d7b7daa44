// The ends from which texts are read.
ghost use Rattle.std.specs.Prelude.{◌≡◌, ℕ, ◌<◌, ◌≤◌, Bool, true, List, Option, Result, length, IsErr, is_err, IfOk};
ghost use Rattle.std.specs.Io.KnownBytes.{prepend_known, IsAtEnd};
ghost use Rattle.tx_text.specs.declared.source.ReadFault.{ReadFault};
ghost use Rattle.tx_text.specs.Ends.{moved};

/// A source failed.
#[derive(Clone, Copy)]
pub struct ReadFault;

/// Where bytes come from.
pub trait Source {
    // The bytes still to come, where the source shows them.
    ghost rest: { Self → Option (List ℕ) };

    // Whether the last call failed.
    ghost failed: { Self → Bool };

    // A call for so many bytes, with this answer, leads from the first value to the second.
    ghost called: { ℕ → Result ℕ ReadFault → Self → Self → Type 0 };

    /// Gives the next bytes, and 0 only at the end. A call that fails gives none, and each later
    /// one fails.
    fn read(&mut self, buf: &mut [u8]) -> Result<usize, ReadFault>
        requires { 0 < length buf.old }
        ensures bound { IfOk result (λ n. n ≤ length buf.new) }
        ensures bytes { rest self.old ≡ prepend_known (moved result buf.new) (rest self.new) }
        ensures end { IfOk result (λ n. n ≡ 0 → IsAtEnd (rest self.new)) }
        ensures call { called (length buf.old) result self.old self.new }
        ensures mark { failed self.new ≡ is_err result }
        ensures stays { failed self.old ≡ true → IsErr result };
}
