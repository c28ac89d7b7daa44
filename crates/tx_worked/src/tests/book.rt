// What a line book answers.
use crate::cases::{
    Told, next_line, next_number, next_word, tell, tell_broken, tell_count, tell_parts, without_lf,
};
use itoa::Buffer;
use std::alloc::Global;
use tx_lines::{LineAnswer, LineBook};
use tx_plan::{CodeId, Line};
use tx_text::words;

/// Does to a line what a word says. Only a new mark takes room: returns whether there was room.
fn happen(book: &mut LineBook, line: &Line, what: &[u8]) -> bool {
    if book.reserve_one().is_err() {
        return false;
    }
    match what {
        b"fault" => book.set_fault(line, true),
        b"repair" => book.set_fault(line, false),
        b"away" => book.set_away(line, true),
        b"back" => book.set_away(line, false),
        b"engage" => book.engage(line),
        b"free" => book.free(line),
        _ => {}
    }
    true
}

/// Tells the marks of a line that was found.
fn tell_marks(book: &LineBook, line: &Line, out: &mut Told) {
    let faulty = book.is_faulty(line);
    let away = book.is_away(line);
    let engaged = book.is_engaged(line);
    tell_parts(
        &[
            b": found",
            if faulty { b" faulty".as_slice() } else { b"" },
            if away { b" away".as_slice() } else { b"" },
            if engaged { b" engaged".as_slice() } else { b"" },
        ],
        out,
    );
}

/// Writes what is answered for a number.
fn tell_answer(book: &LineBook, code: CodeId, number: &[u8], out: &mut Told) {
    let text = match book.answer(code, number) {
        LineAnswer::NoLine => b": no line\n".as_slice(),
        LineAnswer::OutOfOrder => b": out of order\n",
        LineAnswer::Away => b": away\n",
        LineAnswer::Engaged => b": engaged\n",
        LineAnswer::Free(line) => {
            return tell_parts(&[b": free [", line.national.bytes(), b"]\n"], out);
        }
    };
    tell(text, out);
}

/// Writes what is found for a line of a case, which says the index of a code, a number, and what
/// happens to the line first, if anything does, and then what is answered.
fn play_line(book: &mut LineBook, line: &[u8], out: &mut Told) {
    let mut rest = words(line);
    let code = CodeId::of(next_number(&mut rest, 65_535).min(65_535) as usize);
    let number = next_word(&mut rest);
    match book.find(code, number) {
        Some(line) => {
            if !happen(book, &line, next_word(&mut rest)) {
                tell_broken(b"no memory", 0, out);
            }
            tell_marks(book, &line, out);
        }
        None => tell(b": not found", out),
    }
    tell_answer(book, code, number, out);
}

/// Writes what is found for each line of a case.
pub(crate) fn play_book(book: &mut LineBook, lines: &[u8], out: &mut Told) {
    for line in lines.split_inclusive(|byte| *byte == b'\n') {
        let line = without_lf(line);
        tell(line, out);
        play_line(book, line, out);
    }
}

/// The line of the first code that has a number.
fn line_of(book: &LineBook, number: u32) -> Option<Line> {
    let mut digits = Buffer::new();
    book.find(CodeId::of(0), digits.format(number).as_bytes())
}

/// Marks the line of a number away. Returns whether there is such a line, and room for its mark.
fn mark_away(book: &mut LineBook, number: u32) -> bool {
    match line_of(book, number) {
        Some(line) => happen(book, &line, b"away"),
        None => false,
    }
}

/// Marks the lines of the first code from one number to another away, and writes how many of them
/// are found so then.
pub(crate) fn mark_many(book: &mut LineBook, text: &[u8], out: &mut Told) {
    let (line, _) = next_line(text).unwrap_or((b"", b""));
    let mut numbers = words(line);
    let first = next_number(&mut numbers, 999_999_999);
    let last = next_number(&mut numbers, 999_999_999);
    for number in first..=last {
        if !mark_away(book, number) {
            tell_broken(b"not marked", u64::from(number), out);
        }
    }
    let mut away: u64 = 0;
    for number in first..=last {
        if let Some(line) = line_of(book, number) {
            away = away.saturating_add(u64::from(book.is_away(&line)));
        }
    }
    tell_count(b"away: ", away, b"\n", out);
}
