// What the programs tell.
use itoa::Buffer;
use std::alloc::Global;
use std::io;
use std::io::Write;
use tx_text::{Sink, WriteFault};

/// A text that grows with all that is told. Where memory ran out for it, it ends there, and says so
/// when it is let out.
#[derive(Drop)]
pub struct Told {
    text: Vec<u8>,
    failed: bool,
}

impl Told {
    pub fn new(alloc: Global) -> Told {
        Told {
            text: Vec::new(alloc),
            failed: false,
        }
    }

    /// What was told.
    pub fn text(&self) -> &[u8] {
        self.text.as_slice()
    }

    /// All that was told, or none where memory ran out for it.
    pub fn whole(&self) -> Option<&[u8]> {
        if self.failed {
            return None;
        }
        Some(self.text.as_slice())
    }

    /// Whether this was told, and nothing else.
    pub fn is(&self, text: &[u8]) -> bool {
        !self.failed && self.text.as_slice() == text
    }

    fn put(&mut self, bytes: &[u8]) {
        if !self.failed {
            self.failed = self.text.extend_from_slice(bytes).is_err();
        }
    }

    /// Lets out what was told.
    pub fn let_out<O: Write>(&self, out: &mut O) -> io::Result<()> {
        out.write_all(self.text.as_slice())?;
        if self.failed {
            out.write_all(b"!!!! BROKEN: no memory for what is told\n")?;
        }
        out.flush()
    }
}

impl Sink for Told {
    ghost use Rattle.std.specs.Prelude.{None};

    ghost taken = { λ _. None };

    ghost failed = { λ s. s.failed };

    ghost called = { λ _ _ _ _. Unit {0} };

    fn write(&mut self, bytes: &[u8]) -> Result<usize, WriteFault> {
        if self.failed || self.text.extend_from_slice(bytes).is_err() {
            self.failed = true;
            return Err(WriteFault);
        }
        Ok(bytes.len())
    }

    fn has_failed(&self) -> bool {
        self.failed
    }
}

/// Tells a text.
pub fn tell(text: &[u8], out: &mut Told) {
    out.put(text);
}

/// Tells some texts, one after another.
pub fn tell_parts(texts: &[&[u8]], out: &mut Told) {
    for text in texts {
        out.put(*text);
    }
}

/// Tells a number between two texts.
pub fn tell_count(before: &[u8], count: u64, after: &[u8], out: &mut Told) {
    let mut digits = Buffer::new();
    tell_parts(&[before, digits.format(count).as_bytes(), after], out);
}

/// Tells loudly which law a case broke, and at which number first.
pub fn tell_broken(law: &[u8], number: u64, out: &mut Told) {
    tell_parts(&[b"!!!! BROKEN: ", law], out);
    tell_count(b" ", number, b"\n", out);
}
