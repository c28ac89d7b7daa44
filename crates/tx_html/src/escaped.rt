// Texts on a page.
ghost use Rattle.std.specs.Prelude.{◌≡◌};
ghost use Rattle.std.specs.List.{list_all};
ghost use Rattle.tx_text.specs.Puts.{Puts};
ghost use Rattle.tx_html.specs.Escaped.{escaped, escaped_byte, entity, is_markup, is_plain};

use tx_text::{Sink, put_bytes};

/// What stands for a byte that is not plain.
fn entity(byte: u8) -> &'static [u8]
    ensures { result.now ≡ entity byte }
{
    match byte {
        b'<' => b"&lt;",
        b'>' => b"&gt;",
        b'&' => b"&amp;",
        b'"' => b"&quot;",
        b'\'' => b"&#39;",
        _ => b"?",
    }
}

/// Whether a byte begins or ends a tag, or the value of an attribute.
fn is_markup(byte: u8) -> bool
    ensures { result ≡ is_markup byte }
{
    byte == b'<' || byte == b'>' || byte == b'"' || byte == b'\''
}

/// Whether a byte stands for itself.
fn is_plain(byte: u8) -> bool
    ensures { result ≡ is_plain byte }
{
    !is_markup(byte) && byte != b'&' && byte >= b' ' && byte != 127
}

/// Whether each byte of a text stands for itself.
fn are_plain(text: &[u8]) -> bool
    ensures { result ≡ list_all is_plain text.now }
{
    text.iter().all(|byte| is_plain(*byte))
}

/// Writes a text so that none of it is taken for markup.
pub fn write_escaped<W: Sink>(text: &[u8], sink: &mut W)
    ensures { Puts W.taken W.failed sink.old sink.new (escaped text.now) }
{
    if are_plain(text) {
        put_bytes(text, sink)
    } else {
        write_each(text, sink)
    }
}

/// Writes what stands for each byte of a text.
fn write_each<W: Sink>(text: &[u8], sink: &mut W)
    ensures { Puts W.taken W.failed sink.old sink.new (escaped text.now) }
{
    for i in 0..text.len() {
        write_byte(text[i], sink);
    }
}

/// Writes what stands for a byte.
pub(crate) fn write_byte<W: Sink>(byte: u8, sink: &mut W)
    ensures { Puts W.taken W.failed sink.old sink.new (escaped_byte byte) }
{
    if is_plain(byte) {
        put_bytes(&[byte], sink)
    } else {
        put_bytes(entity(byte), sink)
    }
}
