// The frame of a text: its header, its lines and its END, and the lines that it leaves to a reader.
ghost use Rattle.std.specs.Prelude.{◌≡◌, ◌⊎◌, ◌≤◌, IfOk, IfErr, OnOk, IsSome, None};
ghost use Rattle.tx_text.specs.Words.{words_of};
ghost use Rattle.tx_text.specs.Told.{frame_fault};
ghost use Rattle.tx_text.specs.Rows.{frame_row};
ghost use Rattle.tx_text.specs.Frame.{is_end, header_of, looked, closing, last_fault};
ghost use Rattle.tx_text.specs.inner.Framing.{end_as, frame_start, line_of_frame, IsSound, to_come, GoesOn, WentOn, number_of_line, words_of_line};
ghost use Rattle.tx_text.specs.declared.frame.FaultKind.TheVariants.{Frame};
ghost use Rattle.tx_text.specs.Calls.{source_calls, slice_calls, CallsAtMost, Broken};

use crate::line_words::Words;
use crate::reader::TextReader;
use crate::source::Source;
use crate::split::words;
use crate::text_fault::TextFault;
use std::alloc::{Allocator, Global};
use std::marker::Model;

/// What is wrong with a text beside the words of its lines.
#[derive(Clone, Copy, Debug, PartialEq, Eq)]
pub enum FrameFault {
    /// A line has more than 512 bytes.
    LineTooLong,
    /// A line has a byte that is no tab and not from 0x20 to 0x7E.
    BadByte,
    /// No memory was left for the reader's line.
    NoMemory,
    /// The source failed, or was not at its end after the allowed number of calls.
    Read,
    /// The first line with words is not the header, or no line has words.
    NoHeader,
    /// The text ends without END, or in the middle of a line with words that is not the one word
    /// END.
    NoEnd,
    /// A line after END has words.
    AfterEnd,
}

impl From<TextFault> for FrameFault {
    ghost from_gives = { λ fault frame. frame ≡ frame_fault fault };

    fn from(fault: TextFault) -> FrameFault {
        match fault {
            TextFault::LineTooLong => FrameFault::LineTooLong,
            TextFault::BadByte => FrameFault::BadByte,
            TextFault::NoMemory => FrameFault::NoMemory,
        }
    }
}

impl FrameFault {
    /// The code and the name of a fault, by the codes that the kind of text has for no header, no
    /// END, words after END and a failed read.
    pub fn code_and_name(
        self,
        no_header: &'static [u8],
        no_end: &'static [u8],
        after_end: &'static [u8],
        read: &'static [u8],
    ) -> (&'static [u8], &'static [u8])
        ensures { (result.0.now, result.1.now)
            ≡ frame_row no_header.now no_end.now after_end.now read.now self }
    {
        match self {
            FrameFault::LineTooLong => TextFault::LineTooLong.code_and_name(),
            FrameFault::BadByte => TextFault::BadByte.code_and_name(),
            FrameFault::NoMemory => TextFault::NoMemory.code_and_name(),
            FrameFault::NoHeader => (no_header, b"NoHeader"),
            FrameFault::NoEnd => (no_end, b"NoEnd"),
            FrameFault::AfterEnd => (after_end, b"AfterEnd"),
            FrameFault::Read => (read, b"ReadFault"),
        }
    }
}

/// What is wrong with a text: its frame, or the words of a line.
#[derive(Clone, Copy, Debug, PartialEq, Eq)]
pub enum FaultKind<W> {
    Frame(FrameFault),
    Word(W),
}

/// A fault of a text, with the number of its line, from 1.
#[derive(Clone, Copy, Debug, PartialEq, Eq)]
pub struct FaultAt<W> {
    pub line: u64,
    pub kind: FaultKind<W>,
}

/// Which part of a text is read.
#[derive(Clone, Copy)]
pub enum FramePart {
    /// Before the header.
    Start,
    /// Between the header and END.
    Body,
    /// After END.
    Ended,
}

/// A fault of the frame, with the number of its line, from 1.
#[derive(Clone, Copy)]
pub struct FrameStop {
    pub line: u64,
    pub fault: FrameFault,
}

impl<W> From<FrameStop> for FaultAt<W> {
    ghost from_gives = { λ stop fault. fault
        ≡ record { line = stop.line; kind = Frame stop.fault } };

    fn from(stop: FrameStop) -> FaultAt<W> {
        FaultAt {
            line: stop.line,
            kind: FaultKind::Frame(stop.fault),
        }
    }
}

/// What a call that goes on in a text came to.
#[derive(Clone, Copy)]
pub enum FrameStep {
    /// The header of this version.
    Header(u8),
    /// A line with words between the header and END.
    Line,
    /// The end of the text, which has its header and END.
    End,
}

/// What a finished line is in the frame.
#[derive(Clone, Copy)]
pub enum LineForm {
    /// Without words.
    Blank,
    /// The header of this version.
    Header(u8),
    /// A line with words between the header and END.
    Plain,
    /// The line of the one word END.
    End,
    /// A line that cannot be there.
    Bad(FrameFault),
}

/// Whether the words are the one word END.
pub fn is_end(words: Words<'_>) -> bool
    ensures { result ≡ is_end words.entry }
{
    let mut words = words;
    match words.next() {
        None => false,
        Some(first) => first == b"END".as_slice() && words.next().is_none(),
    }
}

/// The version of the header that the words are, if they are one.
#[tactic(auto, using(crate::proofs::Headers::header_count))]
fn header(key: &[u8], most: u8, words: Words<'_>) -> Option<u8>
    ensures { result ≡ header_of key.now most words.entry }
{
    let (first, version) = words.two()?;
    if first != key {
        return None;
    }
    if version == b"1".as_slice() {
        return Some(1);
    }
    if most >= 2 && version == b"2".as_slice() {
        return Some(2);
    }
    None
}

/// What a finished line is.
pub fn look(key: &[u8], most: u8, phase: FramePart, line: &[u8]) -> LineForm
    ensures { result ≡ looked (header_of key.now most) phase (words_of line.now) }
{
    let mut all = words(line);
    let Some(first) = all.next() else {
        return LineForm::Blank;
    };
    match phase {
        FramePart::Start => match header(key, most, words(line)) {
            Some(version) => LineForm::Header(version),
            None => LineForm::Bad(FrameFault::NoHeader),
        },
        FramePart::Body => {
            if first == b"END".as_slice() && all.next().is_none() {
                LineForm::End
            } else {
                LineForm::Plain
            }
        }
        FramePart::Ended => LineForm::Bad(FrameFault::AfterEnd),
    }
}

/// What is wrong where the text ends.
pub fn closing(phase: FramePart) -> Option<FrameFault>
    ensures { result ≡ closing phase }
{
    match phase {
        FramePart::Start => Some(FrameFault::NoHeader),
        FramePart::Body => Some(FrameFault::NoEnd),
        FramePart::Ended => None,
    }
}

/// What is wrong where the text ends with this unfinished line.
pub fn last_fault(phase: FramePart, line: &[u8]) -> Option<FrameFault>
    ensures { result ≡ last_fault phase (words_of line.now) }
{
    let mut all = words(line);
    if all.next().is_none() {
        return closing(phase);
    }
    let end = is_end(words(line));
    match phase {
        FramePart::Start => {
            if end {
                Some(FrameFault::NoHeader)
            } else {
                Some(FrameFault::NoEnd)
            }
        }
        FramePart::Body => { if end { None } else { Some(FrameFault::NoEnd) } }
        FramePart::Ended => Some(FrameFault::AfterEnd),
    }
}

/// What to answer where the text ends.
pub(crate) fn end_as(number: u64, fault: Option<FrameFault>) -> Result<FrameStep, FrameStop>
    ensures { result ≡ end_as number fault }
{
    match fault {
        None => Ok(FrameStep::End),
        Some(fault) => Err(FrameStop {
            line: number,
            fault,
        }),
    }
}

/// How many calls a text may take that comes from a source.
pub const SOURCE_CALLS: u64 = 4_294_967_295;

/// How many calls a text may take that is in memory: it has fewer than 2^63 bytes, and each call
/// takes 4,096 of them.
const SLICE_CALLS: u64 = 2_251_799_813_685_249;

/// Reads a text from a source, and keeps its frame.
#[derive(Drop)]
pub struct FrameReader<'k, A: Allocator = Global> {
    key: &'k [u8],
    most: u8,
    reader: TextReader<A>,
    phase: FramePart,
    number: u64,
}

impl<'k, A: Allocator> Model for FrameReader<'k, A> {
    ghost use Rattle.tx_text.specs.inner.Framing.{FrameReading};

    ghost Value = { FrameReading };

    ghost use Rattle.tx_text.specs.inner.FrameFields.{frame_of};

    ghost view = { frame_of };
}

impl<'k, A: Allocator> FrameReader<'k, A> {
    /// A reader of a text from a source. The header is the key and a version from 1 to `most`, as
    /// `PLAN 2`. `Err` means out of memory, and nothing else.
    pub fn new(alloc: A, key: &'k [u8], most: u8) -> Result<FrameReader<'k, A>, FrameStop>
        ensures ok { IfOk result (λ r. r ≡ frame_start key.now most source_calls) }
        ensures err { IfErr result (λ e. e ≡ record { line = 1; fault = FrameFault.NoMemory }) }
    {
        FrameReader::of_calls(alloc, key, most, SOURCE_CALLS)
    }

    /// The same for a text that is in memory: no such text meets the bound on calls.
    pub fn for_slice(alloc: A, key: &'k [u8], most: u8) -> Result<FrameReader<'k, A>, FrameStop>
        ensures ok { IfOk result (λ r. r ≡ frame_start key.now most slice_calls) }
        ensures err { IfErr result (λ e. e ≡ record { line = 1; fault = FrameFault.NoMemory }) }
    {
        FrameReader::of_calls(alloc, key, most, SLICE_CALLS)
    }

    /// A reader that has read nothing yet, and may call its source so often.
    fn of_calls(
        alloc: A,
        key: &'k [u8],
        most: u8,
        left: u64,
    ) -> Result<FrameReader<'k, A>, FrameStop>
        requires { left ≤ slice_calls }
        ensures ok { IfOk result (λ r. r ≡ frame_start key.now most left) }
        ensures err { IfErr result (λ e. e ≡ record { line = 1; fault = FrameFault.NoMemory }) }
    {
        match TextReader::new(alloc, left) {
            Ok(reader) => Ok(FrameReader {
                key,
                most,
                reader,
                phase: FramePart::Start,
                number: 1,
            }),
            Err(fault) => Err(FrameStop {
                line: 1,
                fault: FrameFault::from(fault),
            }),
        }
    }

    /// Goes on to the header, to the next line with words or to the end. `Err` is the first fault,
    /// with its line. A fault before the end of the source is one whatever bytes follow; a read
    /// fault means that the source failed, or was not at its end after so many calls.
    pub fn advance<R: Source>(&mut self, source: &mut R) -> Result<FrameStep, FrameStop>
        requires { IsSound self.old }
        ensures sound { IfOk result (λ _. IsSound self.new) }
        ensures gives { GoesOn (R.rest source.old) (R.rest source.new)
            (to_come self.old) (to_come self.new) (line_of_frame self.new) (Broken R.called
            (R.failed source.new) self.old.reader.left source.old source.new) result }
        ensures line { result ≡ Ok FrameStep.Line → IsSome (line_of_frame self.new) }
        ensures went { IfOk result (λ step. (step ≡ FrameStep.End)
            ⊎ WentOn R.called self.old.reader self.new.reader source.old source.new) }
        ensures calls { CallsAtMost R.called self.old.reader.left source.old source.new }
        ensures unmarked { OnOk result (R.failed source.new ≡ R.failed source.old) }
    {
        'lines: loop {
            match self.reader.advance(source) {
                Err(fault) => {
                    return Err(FrameStop {
                        line: self.number,
                        fault,
                    });
                }
                Ok(false) => return end_as(self.number, closing(self.phase)),
                Ok(true) => {}
            }
            let line = self.reader.line();
            let number = line.number;
            if !line.finished {
                return end_as(number, last_fault(self.phase, line.text));
            }
            let seen = look(self.key, self.most, self.phase, line.text);
            self.number = number + 1;
            match seen {
                LineForm::Blank => {}
                LineForm::End => self.phase = FramePart::Ended,
                LineForm::Header(version) => {
                    self.phase = FramePart::Body;
                    return Ok(FrameStep::Header(version));
                }
                LineForm::Plain => return Ok(FrameStep::Line),
                LineForm::Bad(fault) => {
                    return Err(FrameStop {
                        line: number,
                        fault,
                    });
                }
            }
        }
    }

    /// The number of the present line, from 1.
    pub fn number(&self) -> u64
        requires { IsSome (line_of_frame self.now) }
        ensures { result ≡ number_of_line (line_of_frame self.now) }
    {
        self.reader.line().number
    }

    /// The words of the present line.
    pub fn words(&self) -> Words<'_>
        requires { IsSome (line_of_frame self.now) }
        ensures { result ≡ words_of_line (line_of_frame self.now) }
    {
        words(self.reader.line().text)
    }
}
