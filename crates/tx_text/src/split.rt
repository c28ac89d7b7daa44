// The words of a line.
ghost use Rattle.std.specs.Prelude.{◌≡◌};
ghost use Rattle.tx_text.specs.Words.{words_of};

use crate::line_words::Words;

/// The words of a line, which spaces and tabs separate, up to a `#`.
pub fn words(line: &[u8]) -> Words<'_>
    ensures { result ≡ words_of line.now }
{
    Words { rest: line }
}
