// Numbers on a page.
ghost use Rattle.std.specs.Prelude.{◌≡◌};
ghost use Rattle.tx_text.specs.Puts.{Puts};
ghost use Rattle.tx_html.specs.Amounts.{gap, in_threes};
ghost use Rattle.tx_html.specs.Escaped.{escaped};

use crate::escaped::{write_byte, write_escaped};
use tx_text::Sink;

/// What stands before so many last figures of a number.
fn gap(after: usize) -> &'static [u8]
    ensures { result.now ≡ gap after }
{
    if after > 0 && after % 3 == 0 {
        b"\xe2\x80\xaf"
    } else {
        b""
    }
}

/// Writes figures in threes.
pub(crate) fn write_in_threes<W: Sink>(figures: &[u8], sink: &mut W)
    ensures { Puts W.taken W.failed sink.old sink.new (escaped (in_threes figures.now)) }
{
    for i in 0..figures.len() {
        write_byte(figures[i], sink);
        write_escaped(gap(figures.len() - i - 1), sink);
    }
}
