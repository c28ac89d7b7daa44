// What a page is made of.
ghost use Rattle.std.specs.Prelude.{[], ◌∷◌};
ghost use Rattle.tx_html.specs.Amounts.{amount};
ghost use Rattle.tx_html.specs.Shows.{Sets, seen_by, part_texts};

use crate::amount::write_in_threes;
use crate::escaped::write_escaped;
use itoa::Buffer;
use tx_text::{Sink, put_bytes};

/// A part of a page. A text of a plan cannot be `Own`, which takes words of the program alone, and
/// a number stands between the quotes of an attribute, or the page shows it.
#[derive(Clone, Copy)]
pub enum Part<'a> {
    /// Markup, and words of the page's own.
    Own(&'static str),
    /// The value of an attribute, after its name: words of the page's own, and then a number.
    Value(&'static str, u64),
    /// The value of an attribute that says how wide and how high a picture is.
    Size(u64, u64),
    /// A text that the page shows.
    Text(&'a [u8]),
    /// A number that the page shows.
    Count(u64),
    /// A number that may be large: the page shows its figures in threes.
    Amount(u64),
}

/// Sets a part of a page.
pub(crate) fn set_part<W: Sink>(part: Part<'_>, sink: &mut W)
    ensures { Sets (seen_by W.taken W.failed) sink.old sink.new (part_texts part.entry) }
{
    let mut buffer = Buffer::new();
    match part {
        Part::Own(words) => set_own(words.as_bytes(), sink),
        Part::Value(words, number) => set_value(words, number, sink),
        Part::Size(wide, high) => set_size(wide, high, sink),
        Part::Text(text) => set_text(text, sink),
        Part::Count(number) => set_text(buffer.format(number).as_bytes(), sink),
        Part::Amount(number) => set_amount(number, sink),
    }
}

/// Sets markup.
pub(crate) fn set_own<W: Sink>(bytes: &[u8], sink: &mut W)
    ensures { Sets (seen_by W.taken W.failed) sink.old sink.new [] }
{
    put_bytes(bytes, sink);
}

/// Sets a number in markup.
pub(crate) fn set_number<W: Sink>(number: u64, sink: &mut W)
    ensures { Sets (seen_by W.taken W.failed) sink.old sink.new [] }
{
    set_own(Buffer::new().format(number).as_bytes(), sink);
}

/// Sets the value of an attribute.
fn set_value<W: Sink>(words: &'static str, number: u64, sink: &mut W)
    ensures { Sets (seen_by W.taken W.failed) sink.old sink.new [] }
{
    set_own(b"=\"", sink);
    set_own(words.as_bytes(), sink);
    set_number(number, sink);
    set_own(b"\"", sink);
}

fn set_size<W: Sink>(wide: u64, high: u64, sink: &mut W)
    ensures { Sets (seen_by W.taken W.failed) sink.old sink.new [] }
{
    set_own(b"=\"0 0 ", sink);
    set_number(wide, sink);
    set_own(b" ", sink);
    set_number(high, sink);
    set_own(b"\"", sink);
}

/// Sets a text, escaped.
fn set_text<W: Sink>(text: &[u8], sink: &mut W)
    ensures { Sets (seen_by W.taken W.failed) sink.old sink.new (text.now ∷ []) }
{
    write_escaped(text, sink);
}

/// Sets a number, its figures in threes.
fn set_amount<W: Sink>(number: u64, sink: &mut W)
    ensures { Sets (seen_by W.taken W.failed) sink.old sink.new (amount number ∷ []) }
{
    write_in_threes(Buffer::new().format(number).as_bytes(), sink);
}
