// What lines are read as: words, names, figures and numbers.
use crate::cases::{Head, Told, tell, tell_count, tell_parts, without_lf};
use tx_text::{Figures, Name, Words, are_figures, is_name, number, words};

/// Tells words, and how many the same once more are.
pub(crate) fn tell_words(words: &Words<'_>, out: &mut Told) {
    let mut count = 0u64;
    for _word in words.again() {
        count = count.saturating_add(1);
    }
    tell_count(b"", count, b" words:", out);
    for word in words.again() {
        tell_parts(&[b" [", word, b"]"], out);
    }
    tell(b"\n", out);
}

/// Writes what was read of a line, if anything was, and whether the line is of the form.
fn tell_read(read: Option<&[u8]>, is_one: bool, out: &mut Told) {
    match read {
        Some(bytes) => tell_parts(&[b"[", bytes, b"]"], out),
        None => tell(b"none", out),
    }
    let end = if is_one {
        b", yes\n".as_slice()
    } else {
        b", no\n"
    };
    tell(end, out);
}

/// Writes what a line is read as by the kind of the case: figures, of which there are at least and
/// at most as many as its two numbers say, or a number up to the first one.
fn tell_line(head: Head<'_>, line: &[u8], out: &mut Told) {
    let (first, second) = head.numbers();
    match head.word {
        b"words" => tell_words(&words(line), out),
        b"name" => match Name::read(line) {
            Some(name) => tell_read(Some(name.bytes()), is_name(line), out),
            None => tell_read(None, is_name(line), out),
        },
        b"figures" => {
            let is_one = are_figures(line, first as usize, second as usize);
            match Figures::read(line) {
                Some(figures) => tell_read(Some(figures.bytes()), is_one, out),
                None => tell_read(None, is_one, out),
            }
        }
        _ => match number(line, first) {
            Some(number) => tell_count(b"", u64::from(number), b"\n", out),
            None => tell(b"none\n", out),
        },
    }
}

/// Writes what each line of a text is.
pub(crate) fn tell_spellings(head: Head<'_>, text: &[u8], out: &mut Told) {
    for line in text.split_inclusive(|byte| *byte == b'\n') {
        let line = without_lf(line);
        tell_parts(&[b"[", line, b"]: "], out);
        tell_line(head, line, out);
    }
}
