// What a case prints, beside what it has to print.
use crate::cases::told::{Told, tell, tell_count, tell_parts};
use memchr::memchr;

/// How many lines of each text are told.
const LINES: u8 = 3;

/// The first line of a text, with its LF if it has one, and what follows it. A text that is
/// none has an empty line.
fn split_line(text: &[u8]) -> (&[u8], &[u8]) {
    match memchr(b'\n', text) {
        Some(end) => text.split_at(end + 1),
        None => (text, b""),
    }
}

/// Two texts from the first line on that is not the same in both, and the number of that line.
fn from_first_other<'a>(wanted: &'a [u8], got: &'a [u8]) -> (u64, &'a [u8], &'a [u8]) {
    let (mut wanted, mut got, mut number) = (wanted, got, 1u64);
    for _ in 0..wanted.len() {
        let (line, more) = split_line(wanted);
        let (other, others) = split_line(got);
        if line != other {
            break;
        }
        wanted = more;
        got = others;
        number = number.saturating_add(1);
    }
    (number, wanted, got)
}

/// Tells a byte of a line: one that cannot be seen by its mark.
fn tell_byte(byte: u8, out: &mut Told) {
    match byte {
        b'\n' | b' '..=b'~' => tell(&[byte], out),
        _ => tell_count(b"{", u64::from(byte), b"}", out),
    }
}

/// Tells a line, or that there is none any more.
fn tell_line(what: &[u8], line: &[u8], out: &mut Told) {
    tell(what, out);
    if line.is_empty() {
        return tell(b"no more\n", out);
    }
    for byte in line {
        tell_byte(*byte, out);
    }
    if !line.ends_with(b"\n") {
        tell(b"{}\n", out);
    }
}

/// Tells the name of a case that differs, and its first lines that do, those that are wanted beside
/// those that it printed.
pub fn tell_differing(name: &[u8], wanted: &[u8], got: &[u8], out: &mut Told) {
    let (number, mut wanted, mut got) = from_first_other(wanted, got);
    tell_parts(&[b"differs: ", name], out);
    tell_count(b", line ", number, b" of what it prints\n", out);
    for _ in 0..LINES {
        let (line, more) = split_line(wanted);
        let (other, others) = split_line(got);
        if line == other {
            break;
        }
        tell_line(b"  wanted: ", line, out);
        tell_line(b"  got:    ", other, out);
        wanted = more;
        got = others;
    }
}
