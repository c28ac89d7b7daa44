// The ends to which texts are written.
ghost use Rattle.std.specs.Prelude.{◌≡◌, ℕ, ◌<◌, ◌≤◌, Bool, true, List, Option, Result, length, IsErr, is_err, IfOk};
ghost use Rattle.std.specs.List.{flat_map};
ghost use Rattle.std.specs.Io.KnownBytes.{append_known};
ghost use Rattle.tx_text.specs.declared.sink.WriteFault.{WriteFault};
ghost use Rattle.tx_text.specs.Ends.{moved};
ghost use Rattle.tx_text.specs.Puts.{Puts};
ghost use Rattle.tx_text.specs.Wrote.{Wrote};

/// A sink failed.
#[derive(Clone, Copy)]
pub struct WriteFault;

/// Where bytes go.
pub trait Sink {
    // The bytes that were taken, where the sink shows them.
    ghost taken: { Self → Option (List ℕ) };

    // Whether the last call failed.
    ghost failed: { Self → Bool };

    // A call with these bytes, and this answer, leads from the first value to the second.
    ghost called: { List ℕ → Result ℕ WriteFault → Self → Self → Type 0 };

    /// Takes at least one byte. A call that fails takes none, and each later one fails.
    fn write(&mut self, bytes: &[u8]) -> Result<usize, WriteFault>
        requires { 0 < length bytes.now }
        ensures some { IfOk result (λ n. 0 < n) }
        ensures bound { IfOk result (λ n. n ≤ length bytes.now) }
        ensures bytes { taken self.new ≡ append_known (taken self.old) (moved result bytes.now) }
        ensures call { called bytes.now result self.old self.new }
        ensures mark { failed self.new ≡ is_err result }
        ensures stays { failed self.old ≡ true → IsErr result };

    /// Whether the last call failed.
    fn has_failed(&self) -> bool
        ensures { result ≡ failed self.now };
}

/// Puts all the bytes to a sink, or a front of them where it fails. Whoever puts a text in parts
/// goes on after a failure: the sink takes nothing more, and `finish` tells of it.
pub fn put_bytes<W: Sink>(bytes: &[u8], sink: &mut W)
    ensures { Puts W.taken W.failed sink.old sink.new bytes.now }
{
    let mut rest = bytes;
    while !rest.is_empty() {
        let Ok(n) = sink.write(rest) else {
            return;
        };
        let (_, after) = rest.split_at(n);
        rest = after;
    }
}

/// Puts the parts of a text to a sink, one after another.
pub fn put_parts<W: Sink>(parts: &[&[u8]], sink: &mut W)
    ensures { Puts W.taken W.failed sink.old sink.new (flat_map (λ p. p.now) parts.now) }
{
    for i in 0..parts.len() {
        put_bytes(parts[i], sink);
    }
}

/// Tells whether a sink failed under what was put to it.
pub fn finish<W: Sink>(sink: &W) -> Result<(), WriteFault>
    ensures { W.failed sink.now ≡ is_err result }
{
    if sink.has_failed() {
        Err(WriteFault)
    } else {
        Ok(())
    }
}

/// Writes all the bytes, or stops where the sink fails: then a front of them was taken, and not
/// all.
pub fn write_bytes<W: Sink>(bytes: &[u8], sink: &mut W) -> Result<(), WriteFault>
    ensures { Wrote W.taken W.failed sink.old sink.new bytes.now result }
{
    if bytes.is_empty() {
        return Ok(());
    }
    put_bytes(bytes, sink);
    finish(sink)
}
