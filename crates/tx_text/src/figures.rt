// Texts of figures in room of their own, and numbers in decimal figures.
ghost use Rattle.std.specs.Prelude.{◌≡◌, ◌≤◌, true, length, Some, None, if◌then◌else◌, ◌-◌, ◌++◌, replicate, bytes_eq};
ghost use Rattle.std.specs.List.{list_all};
ghost use Rattle.std.specs.Str.Parse.{digits_value};
ghost use Rattle.tx_text.specs.inner.Padded.{padded_to};
ghost use Rattle.tx_text.specs.Words.{figures_of, are_figures, is_figure, number_of};

use std::marker::Model;

/// A text of at most N bytes, where N is at most 255. Zeros fill the room after it.
#[derive(Clone, Copy, Debug)]
pub struct InlineBytes<const N: usize> {
    bytes: [u8; N],
    len: u8,
}

impl<const N: usize> Model for InlineBytes<N> {
    ghost use Rattle.std.specs.Prelude.{ℕ, List, ◌-◌, ◌++◌, length, take, replicate, refl};
    ghost use Rattle.tx_text.specs.inner.Padded.{IsPadded};

    ghost Value = { List ℕ };

    ghost view = { λ s. take s.len s.bytes };

    ghost invariant = { λ s. IsPadded N s.len s.bytes };

    ghost inverse = { λ d. record { bytes = d ++ replicate (N - length d) 0; len = length d } };

    ghost inverse_ok = { λ a h. Prim.rw (h.short, ← h.padded) refl };
}

impl<const N: usize> PartialEq for InlineBytes<N> {
    ghost use Rattle.std.specs.Prelude.{bytes_eq};
    ghost use Rattle.std.specs.Cmp.{partial_equiv_from_equiv};
    ghost use Rattle.std.specs.Cmp.Lexicographic.{nat_list_eq_equiv};

    ghost eq = { bytes_eq };

    ghost laws = { partial_equiv_from_equiv nat_list_eq_equiv };

    fn eq(&self, other: &InlineBytes<N>) -> bool {
        self.len == other.len && self.bytes == other.bytes
    }
}

impl<const N: usize> Eq for InlineBytes<N> {
    ghost use Rattle.std.specs.Cmp.Lexicographic.{nat_list_eq_equiv};

    ghost laws = { nat_list_eq_equiv };
}

impl<const N: usize> InlineBytes<N> {
    ghost use Rattle.tx_text.specs.inner.Padded.{padded_to};

    /// The text, of at most N bytes.
    pub fn new(text: &[u8]) -> InlineBytes<N>
        requires text { length text.now ≤ N }
        requires room { N ≤ 255 }
        ensures { result ≡ text.now }
    {
        InlineBytes {
            bytes: with_zeros(text),
            len: text.len() as u8,
        }
    }

    /// The text.
    pub fn bytes(&self) -> &[u8]
        ensures value { result.now ≡ self.now }
        ensures width { length result.now ≤ N }
    {
        &self.bytes[..usize::from(self.len)]
    }

    /// The text, and zeros after it up to its room.
    pub fn padded(&self) -> &[u8; N]
        ensures { result.now ≡ padded_to N self.now }
    {
        &self.bytes
    }
}

/// The text, which has room, and zeros after it.
fn with_zeros<const N: usize>(text: &[u8]) -> [u8; N]
    requires { length text.now ≤ N }
    ensures { result ≡ padded_to N text.now }
{
    match <[u8; N]>::try_from(text) {
        Ok(full) => full,
        Err(_) => {
            let mut bytes = [0; N];
            bytes[..text.len()].copy_from_slice(text);
            bytes
        }
    }
}

/// A text of 1 to 12 figures, as a caller keys it: a destination code (ITU-T F.69) and a national
/// number.
#[derive(Clone, Copy, PartialEq, Eq)]
pub struct Figures {
    text: InlineBytes<12>,
}

impl Model for Figures {
    ghost use Rattle.std.specs.Prelude.{ℕ, List, ◌≤◌, length};

    ghost Value = { List ℕ };

    ghost view = { λ n. n.text };

    ghost use Rattle.std.specs.Prelude.{◌≡◌, true};
    ghost use Rattle.tx_text.specs.Words.{are_figures};

    ghost invariant = { λ n. are_figures 1 12 n.text ≡ true };

    ghost inverse = { λ d. record { text = d } };
}

impl Figures {
    /// The figures, where the text is 1 to 12 of them and nothing else.
    pub fn read(text: &[u8]) -> Option<Figures>
        ensures { result ≡ figures_of text.now }
    {
        if are_figures(text, 1, 12) {
            let text = InlineBytes::new(text);
            Some(Figures { text })
        } else {
            None
        }
    }

    /// The figures, each a byte from `0` to `9`.
    pub fn bytes(&self) -> &[u8]
        ensures value { result.now ≡ self.now }
        ensures figures { are_figures 1 12 self.now ≡ true }
    {
        self.text.bytes()
    }
}

pub(crate) fn is_figure(byte: u8) -> bool
    ensures { result ≡ is_figure byte }
{
    b'0' <= byte && byte <= b'9'
}

/// Whether a text is figures.
fn all_figures(text: &[u8]) -> bool
    ensures { result ≡ list_all is_figure text.now }
{
    text.iter().all(|byte| is_figure(*byte))
}

/// Whether the text is at least `least` and at most `most` figures, and nothing else.
pub fn are_figures(text: &[u8], least: usize, most: usize) -> bool
    ensures gives { result ≡ are_figures least most text.now }
    ensures short { result ≡ true → length text.now ≤ most }
{
    text.len() >= least && text.len() <= most && all_figures(text)
}

/// The number that the text is the decimal form of, without a sign or leading zeros, if it is at
/// most `max`.
pub fn number(text: &[u8], max: u32) -> Option<u32>
    ensures { result ≡ number_of max text.now }
{
    let value = value_of(text)?;
    if text.len() > 1 && text[0] == b'0' {
        return None;
    }
    if value > max as u64 {
        return None;
    }
    Some(value as u32)
}

/// The value of one to ten figures.
fn value_of(text: &[u8]) -> Option<u64>
    ensures { result ≡ (if are_figures 1 10 text.now
        then Some (digits_value 10 text.now) else None) }
{
    if !are_figures(text, 1, 10) {
        return None;
    }
    let mut value: u64 = 0;
    for figure in text {
        value = value * 10 + u64::from(*figure - b'0');
    }
    Some(value)
}
