// Where a plan ends.
ghost use Rattle.std.specs.Prelude.{◌≡◌, ◌≢◌, ◌+◌, ◌<◌, ◌≤◌, [], ◌++◌, ℕ, List, drop, length, false};
ghost use Rattle.tx_jobs.specs.inner.Seen.{in_line, at_lf, line_seen, is_over, end_from};

use memchr::memchr;

/// What was seen of a plan: that it is over, or of the line in hand as much as says whether its
/// one word is END.
#[derive(Clone, Copy, PartialEq, Eq)]
pub(crate) enum Seen {
    /// Blanks alone.
    Blanks,
    /// The letter E after them.
    E,
    /// The letters EN.
    En,
    /// The word END, and blanks.
    End,
    /// The word END, blanks and a comment.
    Comment,
    /// The word END, blanks and a CR.
    Cr,
    /// A line whose one word is not END.
    Other,
    /// The line whose one word is END, with its LF.
    Over,
}

impl Seen {
    /// What was seen with one byte more of the line.
    fn in_line(self, byte: u8) -> Seen
        ensures { result ≡ in_line self byte }
    {
        match (self, byte) {
            (Seen::Over, _) => Seen::Over,
            (Seen::Blanks, b' ' | b'\t') => Seen::Blanks,
            (Seen::Blanks, b'E') => Seen::E,
            (Seen::E, b'N') => Seen::En,
            (Seen::En, b'D') => Seen::End,
            (Seen::End, b' ' | b'\t') => Seen::End,
            (Seen::End, b'#') | (Seen::Comment, _) => Seen::Comment,
            (Seen::End, b'\r') => Seen::Cr,
            _ => Seen::Other,
        }
    }

    /// What was seen with the LF of the line.
    fn at_lf(self) -> Seen
        ensures { result ≡ at_lf self }
    {
        match self {
            Seen::End | Seen::Comment | Seen::Cr | Seen::Over => Seen::Over,
            _ => Seen::Blanks,
        }
    }

    /// What was seen with more bytes of the line, which are looked at until another word is seen.
    fn with_bytes(self, bytes: &[u8]) -> Seen
        ensures { result ≡ line_seen self bytes.now }
    {
        let mut seen = self;
        for byte in bytes {
            if seen == Seen::Other {
                break;
            }
            seen = seen.in_line(*byte);
        }
        seen
    }

    pub(crate) fn is_over(self) -> bool
        ensures { result ≡ is_over self }
    {
        self == Seen::Over
    }

    /// Takes the bytes up to the end of the line, and returns how many those are.
    fn take_line(&mut self, bytes: &[u8]) -> usize
        requires going { is_over self.old ≡ false }
        ensures within { result ≤ length bytes.now }
        ensures end { (more : List ℕ) → end_from self.old (bytes.now ++ more)
            ≡ result + end_from self.new (drop result bytes.now ++ more) }
        ensures some { bytes.now ≢ [] → 0 < result }
    {
        match memchr(b'\n', bytes) {
            Some(len) => {
                *self = self.with_bytes(&bytes[..len]).at_lf();
                len + 1
            }
            None => {
                *self = self.with_bytes(bytes);
                bytes.len()
            }
        }
    }

    /// Takes the bytes up to the end of the plan, and returns how many those are.
    pub(crate) fn take(&mut self, bytes: &[u8]) -> usize
        ensures within { result ≤ length bytes.now }
        ensures end { (more : List ℕ) → end_from self.old (bytes.now ++ more)
            ≡ result + end_from self.new (drop result bytes.now ++ more) }
        ensures all { is_over self.new ≡ false → result ≡ length bytes.now }
        ensures some { is_over self.old ≡ false → bytes.now ≢ [] → 0 < result }
    {
        let mut taken = 0;
        while taken < bytes.len() && !self.is_over() {
            taken += self.take_line(&bytes[taken..]);
        }
        taken
    }
}
