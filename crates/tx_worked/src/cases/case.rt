// The cases of a file, and their lines and numbers.
ghost use Rattle.std.specs.Prelude.{◌≤◌, length};

use memchr::{memchr, memmem};
use tx_text::{Words, number};

/// A case: the line that names it, its texts, and what has to be printed for it.
#[derive(Clone, Copy)]
pub struct Case<'a> {
    pub head: &'a [u8],
    pub texts: &'a [u8],
    pub prints: &'a [u8],
}

/// The first line of a text, without its LF, and what follows it.
pub fn next_line(text: &[u8]) -> Option<(&[u8], &[u8])> {
    if text.is_empty() {
        return None;
    }
    match memchr(b'\n', text) {
        Some(end) => Some((&text[..end], &text[end + 1..])),
        None => Some((text, b"")),
    }
}

/// A line without its LF.
pub fn without_lf(line: &[u8]) -> &[u8] {
    line.strip_suffix(b"\n".as_slice()).unwrap_or(line)
}

/// The cases of a file, which may have a comment before the first of them.
pub fn cases_of(file: &[u8]) -> &[u8] {
    &file[texts_len(file)..]
}

/// The next case, which begins with a line `=== HEAD`, and what follows it.
pub fn next_case(text: &[u8]) -> Option<(Case<'_>, &[u8])> {
    if !text.starts_with(b"=== ") {
        return None;
    }
    let Some((head, rest)) = next_line(&text[4..]) else {
        return None;
    };
    let (block, more) = rest.split_at(texts_len(rest));
    let (texts, prints) = texts_and_prints(block);
    let case = Case {
        head,
        texts,
        prints,
    };
    Some((case, more))
}

/// The texts of a case, and what has to be printed for it: what follows its line `--- prints`.
fn texts_and_prints(block: &[u8]) -> (&[u8], &[u8]) {
    if let Some(prints) = block.strip_prefix(b"--- prints\n".as_slice()) {
        return (b"", prints);
    }
    match memmem::find(block, b"\n--- prints\n") {
        Some(end) => (&block[..end + 1], &block[end + 12..]),
        None => (block, b""),
    }
}

/// How long a text is up to the next case.
fn texts_len(texts: &[u8]) -> usize
    ensures { result ≤ length texts.now }
{
    if texts.starts_with(b"=== ") {
        return 0;
    }
    match memmem::find(texts, b"\n=== ") {
        Some(end) => end + 1,
        None => texts.len(),
    }
}

/// The texts before and after the first line `---`.
pub fn two_texts(texts: &[u8]) -> (&[u8], &[u8]) {
    match memmem::find(texts, b"---\n") {
        Some(cut) => (&texts[..cut], &texts[cut + 4..]),
        None => (texts, b""),
    }
}

/// The next word, or one of no bytes where there is none.
pub fn next_word<'a>(words: &mut Words<'a>) -> &'a [u8] {
    words.next().unwrap_or(b"")
}

/// The number of the next word, and 0 where it is none.
pub fn next_number(words: &mut Words<'_>, most: u32) -> u32 {
    number(next_word(words), most).unwrap_or(0)
}

/// The number that figures say, or the greatest.
pub fn long_number(word: &[u8]) -> u64 {
    let mut number = 0u64;
    for figure in word {
        let figure = u64::from(figure.saturating_sub(b'0'));
        number = number.saturating_mul(10).saturating_add(figure);
    }
    number
}

/// What a table has for a word, if the word stands there.
pub fn named<T: Copy>(table: &[(&'static str, T)], word: &[u8]) -> Option<T> {
    for (name, it) in table {
        if word == name.as_bytes() {
            return Some(*it);
        }
    }
    None
}
