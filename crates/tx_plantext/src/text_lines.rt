// The lines of a text as they are, each with its CR.
ghost use Rattle.std.specs.Prelude.{◌≡◌, ◌∷◌};
ghost use Rattle.std.specs.Iterator.{YieldsFirstBy, item_count};
ghost use Rattle.std.specs.List.{slice_split};
ghost use Rattle.tx_text.specs.Text.{is_lf};
ghost use Rattle.tx_plantext.specs.inner.LinesLeft.{lines_left};

use std::marker::Model;
use tx_text::lf_or_len;

/// The lines of a text that are left to give. What follows the last LF is a line too.
#[derive(Drop)]
pub struct TextLines<'a> {
    rest: Option<&'a [u8]>,
}

impl<'a> Model for TextLines<'a> {
    ghost use Rattle.std.specs.Prelude.{ℕ, List};
    ghost use Rattle.tx_plantext.specs.inner.LinesLeft.{lines_left};

    ghost Value = { List (List ℕ) };

    ghost view = { λ l. lines_left l.rest };
}

impl<'a> TextLines<'a> {
    /// All lines of a text.
    pub fn new(text: &'a [u8]) -> TextLines<'a>
        ensures { result ≡ slice_split is_lf text.now }
    {
        TextLines { rest: Some(text) }
    }
}

impl<'a> Iterator for TextLines<'a> {
    type Item = &'a [u8];

    ghost next_gives = { YieldsFirstBy (λ x. x.now) (λ s. s) };

    ghost remaining = { item_count (λ s. s) };

    fn next(&mut self) -> Option<&'a [u8]> {
        let (line, rest) = cut_line(self.rest?);
        self.rest = rest;
        Some(line)
    }
}

/// The first line, and what follows its LF, if it has one.
fn cut_line(text: &[u8]) -> (&[u8], Option<&[u8]>)
    ensures { slice_split is_lf text.now ≡ result.0.now ∷ lines_left result.1 }
{
    let (line, rest) = text.split_at(lf_or_len(text));
    match rest.split_first() {
        Some((_, after)) => (line, Some(after)),
        None => (line, None),
    }
}
