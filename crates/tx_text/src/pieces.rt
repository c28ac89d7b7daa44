// Texts that are fed in pieces.
ghost use Rattle.tx_text.specs.inner.Pieces.{PiecesGiveTheLines};

/// However a text is cut into pieces, feeding them to a `LineFeeder` gives the lines that `Lines`
/// gives. Does nothing: its contract is a law.
pub fn pieces_give_the_lines()
    ensures { PiecesGiveTheLines }
{}
