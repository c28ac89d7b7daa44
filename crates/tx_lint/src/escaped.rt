// Texts on one line of a terminal.
ghost use Rattle.std.specs.Prelude.{◌≡◌, ◌<◌};
ghost use Rattle.tx_text.specs.Puts.{Puts};
ghost use Rattle.tx_lint.specs.Escaped.{escaped_text, escaped_byte, hex_digit};

use tx_text::{Sink, put_bytes, put_parts};

/// Writes a text, as the name of a file, with its control bytes spelled, as `\n` and `\x1b`.
pub fn write_escaped<W: Sink>(text: &[u8], sink: &mut W)
    ensures { Puts W.taken W.failed sink.old sink.new (escaped_text text.now) }
{
    for i in 0..text.len() {
        write_byte(text[i], sink);
    }
}

fn write_byte<W: Sink>(byte: u8, sink: &mut W)
    ensures { Puts W.taken W.failed sink.old sink.new (escaped_byte byte) }
{
    if byte == b'\n' {
        put_bytes(b"\\n", sink)
    } else if byte < b' ' || byte == 127 {
        let digits = [hex_digit(byte / 16), hex_digit(byte % 16)];
        put_parts(&[b"\\x", &digits], sink)
    } else {
        put_bytes(&[byte], sink)
    }
}

/// The digit of a number below 16.
fn hex_digit(n: u8) -> u8
    requires { n < 16 }
    ensures { result ≡ hex_digit n }
{
    if n < 10 { b'0' + n } else { b'a' + (n - 10) }
}
