// Texts of a file with marks for what no line can show, and for many lines.
use crate::cases::case::{long_number, next_number};
use crate::cases::told::{Told, tell, tell_broken};
use itoa::Buffer;
use memchr::memchr;
use std::alloc::Global;
use tx_text::words;

/// What is before a byte and after it.
fn cut(text: &[u8], byte: u8) -> Option<(&[u8], &[u8])> {
    match memchr(byte, text) {
        Some(end) => Some((&text[..end], &text[end + 1..])),
        None => None,
    }
}

/// Whether a mark begins after a `{`: it is empty, or begins with a figure, `lines` or `each`. Any
/// other `{` is one.
fn begins_mark(after: &[u8]) -> bool {
    match after.first() {
        Some(first) => {
            *first == b'}'
                || first.is_ascii_digit()
                || after.starts_with(b"lines ")
                || after.starts_with(b"each ")
        }
        None => false,
    }
}

/// How many bytes of a text stand before the first `}` that closes no `{` of its own.
fn closed_after(text: &[u8]) -> usize {
    let mut index = 0usize;
    let mut open = 0u64;
    for byte in text {
        match *byte {
            b'}' if open == 0 => return index,
            b'}' => open = open.saturating_sub(1),
            b'{' => open = open.saturating_add(1),
            _ => {}
        }
        index = index.saturating_add(1);
    }
    index
}

/// The mark whose `{` stands before a text, and what follows it.
fn mark_in(after: &[u8]) -> Option<(&[u8], &[u8])> {
    if !begins_mark(after) {
        return None;
    }
    let (mark, rest) = after.split_at(closed_after(after).min(after.len()));
    let rest = rest.strip_prefix(b"}".as_slice())?;
    Some((mark, rest))
}

/// Tells a text of the file, in which `{13}` stands for the byte of that number, `{35 512}` for 512
/// of them, and `{}` for a line that goes on. `{lines 1 9 CODE 4@ ALFA}` stands for nine lines, and
/// `{each 1 9 4@ }` for nine texts in a row. The numbers go up or down, with as many figures as the
/// first where that begins with 0; `@+2` is the number and two more, `@-2` two less. The text of
/// such a mark may have marks in it, whose own number is `%`.
pub fn spell(alloc: Global, text: &[u8], out: &mut Told) {
    let mut inner = Told::new(alloc);
    spell_outer(text, b'@', &mut inner);
    match inner.whole() {
        Some(text) => spell_outer(text, b'%', out),
        None => tell_broken(b"no memory", 0, out),
    }
}

/// Tells a text with its marks spelled, but for those in the text of others. The sign stands for
/// their numbers.
fn spell_outer(text: &[u8], sign: u8, out: &mut Told) {
    let mut rest = text;
    for _ in 0..=text.len() {
        let Some((before, after)) = cut(rest, b'{') else {
            break;
        };
        tell(before, out);
        rest = match mark_in(after) {
            Some((mark, after)) => {
                tell_mark(mark, sign, out);
                after_mark(mark, after)
            }
            None => {
                tell(b"{", out);
                after
            }
        };
    }
    tell(rest, out);
}

/// What stands after a mark: without its LF, where the line goes on.
fn after_mark<'a>(mark: &[u8], after: &'a [u8]) -> &'a [u8] {
    if mark.is_empty() && after.starts_with(b"\n") {
        &after[1..]
    } else {
        after
    }
}

/// Tells a mark: nothing, a byte's number and how often it stands, or `lines` or `each`, two
/// numbers, and a text that stands once for each number between them.
fn tell_mark(mark: &[u8], sign: u8, out: &mut Told) {
    if let Some(rest) = mark.strip_prefix(b"lines ".as_slice()) {
        return tell_each(rest, b"\n", sign, out);
    }
    if let Some(rest) = mark.strip_prefix(b"each ".as_slice()) {
        return tell_each(rest, b"", sign, out);
    }
    if !mark.is_empty() {
        tell_bytes(mark, out);
    }
}

fn tell_bytes(mark: &[u8], out: &mut Told) {
    let mut numbers = words(mark);
    let byte = next_number(&mut numbers, 255).min(255) as u8;
    for _ in 0..next_number(&mut numbers, 100_000).max(1) {
        tell(&[byte], out);
    }
}

/// Tells a text for each number from the first to the second, up or down, with an end after each.
fn tell_each(mark: &[u8], end: &[u8], sign: u8, out: &mut Told) {
    let (from, rest) = cut(mark, b' ').unwrap_or((b"", b""));
    let (to, text) = cut(rest, b' ').unwrap_or((b"", b""));
    let figures = if from.starts_with(b"0") {
        from.len()
    } else {
        1
    };
    let (first, last) = (long_number(from), long_number(to));
    for step in 0..=first.abs_diff(last) {
        let number = if first <= last {
            first.saturating_add(step)
        } else {
            first.saturating_sub(step)
        };
        tell_numbered(text, sign, number, figures, out);
        tell(end, out);
    }
}

/// Tells a text with a number of at least so many figures in the place of each sign.
fn tell_numbered(text: &[u8], sign: u8, number: u64, figures: usize, out: &mut Told) {
    let mut rest = text;
    for _ in 0..=text.len() {
        let Some((before, after)) = cut(rest, sign) else {
            break;
        };
        tell(before, out);
        let (number, after) = beside(number, after);
        tell_number(number, figures, out);
        rest = after;
    }
    tell(rest, out);
}

/// The number beside one that the text after its sign says, if it says one, and what follows.
fn beside(number: u64, after: &[u8]) -> (u64, &[u8]) {
    if let Some(rest) = after.strip_prefix(b"+".as_slice()) {
        let (by, rest) = first_number(rest);
        return (number.saturating_add(by), rest);
    }
    if let Some(rest) = after.strip_prefix(b"-".as_slice()) {
        let (by, rest) = first_number(rest);
        return (number.saturating_sub(by), rest);
    }
    (number, after)
}

/// The number with which a text begins, and what follows it.
fn first_number(text: &[u8]) -> (u64, &[u8]) {
    let mut figures = 0usize;
    for byte in text {
        if !byte.is_ascii_digit() {
            break;
        }
        figures = figures.saturating_add(1);
    }
    let (number, rest) = text.split_at(figures.min(text.len()));
    (long_number(number), rest)
}

/// Tells a number in at least so many figures.
fn tell_number(number: u64, figures: usize, out: &mut Told) {
    let mut digits = Buffer::new();
    let number = digits.format(number).as_bytes();
    for _ in number.len()..figures {
        tell(b"0", out);
    }
    tell(number, out);
}
