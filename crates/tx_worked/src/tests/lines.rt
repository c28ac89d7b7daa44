// Lines of texts, whole and in pieces.
ghost use Rattle.std.specs.Prelude.{◌+◌, ◌≤◌, length};

use crate::cases::{Told, tell, tell_broken, tell_count, tell_parts};
use std::alloc::Global;
use tx_text::{Fed, LineFeeder, Lines, TextFault, TextLine};

/// The longest text that is fed in pieces.
const LONGEST: usize = 1000;

fn tell_line(line: TextLine<'_>, out: &mut Told) {
    tell_count(b"line ", line.number, b"", out);
    tell_count(b" at ", line.start as u64, b": ", out);
    let end = if line.finished {
        b"]\n".as_slice()
    } else {
        b"], unfinished\n"
    };
    tell_parts(&[b"[", line.text, end], out);
}

pub(crate) fn fault_name(fault: TextFault) -> &'static [u8] {
    match fault {
        TextFault::LineTooLong => b"LineTooLong",
        TextFault::BadByte => b"BadByte",
        TextFault::NoMemory => b"NoMemory",
    }
}

/// Tells the lines of a text, and its fault.
fn tell_lines(text: &[u8], out: &mut Told) {
    for line in Lines::new(text) {
        match line {
            Ok(line) => tell_line(line, out),
            Err(fault) => tell_fed(Err(fault), out),
        }
    }
}

/// Where a text is cut into three pieces, and whether each call is told.
#[derive(Clone, Copy)]
pub(crate) struct Cuts {
    pub first: usize,
    pub second: usize,
    pub told: bool,
}

impl Cuts {
    /// What is before the next cut of a text of which so many bytes were fed.
    fn piece<'a>(&self, fed: usize, rest: &'a [u8]) -> &'a [u8]
        ensures { length result.now ≤ length rest.now }
    {
        let upto = if fed < self.first {
            self.first
        } else if fed < self.second {
            self.second
        } else {
            usize::MAX
        };
        rest.split_at(upto.saturating_sub(fed).min(rest.len())).0
    }
}

/// Writes how much was taken, or a fault.
fn tell_fed(answer: Result<Fed, TextFault>, out: &mut Told) {
    match answer {
        Ok(fed) => tell_count(b"", fed.taken as u64, b" taken\n", out),
        Err(fault) => tell_parts(&[fault_name(fault), b"\n"], out),
    }
}

/// Feeds an LF and a byte more after a fault, which stays.
fn feed_again(feeder: &mut LineFeeder, out: &mut Told)
    requires { feeder.old.start + length feeder.old.begun ≤ 1000 }
{
    let end = feeder.feed(b"\n");
    let byte = feeder.feed(b"A");
    tell_fed(end, out);
    tell_fed(byte, out);
}

/// Feeds a text piece by piece, and tells the lines that come of it. Returns whether there was no
/// fault.
fn feed_pieces(feeder: &mut LineFeeder, text: &[u8], cuts: Cuts, out: &mut Told) -> bool
    requires { feeder.old.start + length feeder.old.begun + length text.now ≤ 1000 }
{
    let mut rest = text;
    for _ in 0..text.len() {
        let piece = cuts.piece(text.len().saturating_sub(rest.len()), rest);
        match feeder.feed(piece) {
            Ok(fed) => {
                if cuts.told {
                    tell_fed(Ok(fed), out);
                }
                if fed.line {
                    tell_line(feeder.line(), out);
                }
                rest = rest.split_at(fed.taken).1;
            }
            Err(fault) => {
                tell_fed(Err(fault), out);
                if cuts.told {
                    feed_again(feeder, out);
                }
                return false;
            }
        }
        if rest.is_empty() {
            break;
        }
    }
    true
}

/// Feeds a text, and writes how it ends.
fn feed_text(feeder: &mut LineFeeder, text: &[u8], cuts: Cuts, out: &mut Told)
    requires { feeder.old.start + length feeder.old.begun + length text.now ≤ 1000 }
{
    if !feed_pieces(feeder, text, cuts, out) && !cuts.told {
        return;
    }
    match feeder.finish() {
        Ok(true) => tell_line(feeder.line(), out),
        Ok(false) => {}
        Err(fault) => tell_fed(Err(fault), out),
    }
}

/// Feeds a text to a new feeder.
pub(crate) fn feed_anew(alloc: Global, text: &[u8], cuts: Cuts, out: &mut Told) {
    if text.len() > LONGEST {
        return tell_broken(b"too long to be fed", 0, out);
    }
    match LineFeeder::new(alloc) {
        Ok(mut feeder) => feed_text(&mut feeder, text, cuts, out),
        Err(_) => tell_broken(b"no memory", 0, out),
    }
}

/// Feeds a text in three pieces: the lines have to be those of the whole.
fn try_cuts(alloc: Global, text: &[u8], cuts: Cuts, whole: &[u8], out: &mut Told) {
    let mut told = Told::new(alloc);
    feed_anew(alloc, text, cuts, &mut told);
    if !told.is(whole) {
        tell_count(b"cut at ", cuts.first as u64, b" and then, ", out);
        tell_broken(b"not the same, cut at", cuts.second as u64, out);
    }
}

/// Feeds a text in all three pieces into which it can be cut.
fn try_all_cuts(alloc: Global, text: &[u8], whole: &[u8], out: &mut Told) {
    for second in 0..=text.len() {
        for first in 0..=second {
            let cuts = Cuts {
                first,
                second,
                told: false,
            };
            try_cuts(alloc, text, cuts, whole, out);
        }
    }
}

/// Tells the lines of a text, and feeds it in pieces where it is short.
pub(crate) fn play_lines(alloc: Global, text: &[u8], out: &mut Told) {
    let mut whole = Told::new(alloc);
    tell_lines(text, &mut whole);
    tell(whole.text(), out);
    if text.len() < 100 {
        try_all_cuts(alloc, text, whole.text(), out);
    }
}
