// The reading of a text whose lines declare something, one after another.
ghost use Rattle.std.specs.Prelude.{◌≡◌, ℕ, List, Result, Bool, true};
ghost use Rattle.tx_text.specs.Calls.{source_calls, CallsAtMost, Broken};
ghost use Rattle.tx_text.specs.Ends.{input};
ghost use Rattle.tx_text.specs.Told.{AtEnd};
ghost use Rattle.tx_text.specs.Said.{Declared, Answered, AnswersAs, ReadsText, text_said, line_declares, WantingAt, told_fault};
ghost use Rattle.tx_text.specs.inner.Framing.{frame_start};

use crate::frame::{FaultAt, FaultKind, FrameReader, FrameStep};
use crate::line_words::Words;
use crate::slice_source::{SliceSource, slices_are_read_whole};
use crate::source::Source;
use std::alloc::Allocator;

/// What the lines of a text declare, as far as it was read.
pub trait Declares {
    /// What is wrong with the words of a line.
    type Word;

    // What a line declares under a header of this version, after the lines before it.
    ghost declares: { ℕ → Self → List (List ℕ) → Result Self Self.Word };

    // Whether that is wrong that no memory was left.
    ghost is_memory: { Self.Word → Bool };

    /// Declares what the line does, or returns what is wrong with its words. Memory can run out
    /// only for a line that declares something.
    fn declare(&mut self, version: u8, words: Words<'_>) -> Result<(), Self::Word>
        ensures { Declared is_memory (declares version self.old words.entry) self.new result };
}

/// Reads a text from a source, to its end, in pieces of any size and by at most 4,294,967,295
/// calls. Its header is the key and a version from 1 to `most`. `Err` is the first fault, with its
/// line. A fault before the end is one whatever bytes follow.
pub fn read_text<D: Declares + Drop, R: Source, A: Allocator>(
    alloc: A,
    key: &[u8],
    most: u8,
    start: D,
    source: &mut R,
) -> Result<D, FaultAt<D::Word>>
    ensures answer { ReadsText D.declares D.is_memory key.now most start
        (input R.rest R.failed R.called source.old source.new) (told_fault result) }
    ensures calls { CallsAtMost R.called source_calls source.old source.new }
{
    let frame = FrameReader::new(alloc, key, most)?;
    read_lines(frame, start, source)
}

/// Reads a text that is in memory. `Err` is the first fault, with its line.
pub fn read_slice<D: Declares + Drop, A: Allocator>(
    alloc: A,
    key: &[u8],
    most: u8,
    start: D,
    text: &[u8],
) -> Result<D, FaultAt<D::Word>>
    ensures { AnswersAs D.is_memory (text_said D.declares key.now most start AtEnd text.now)
        (λ n. line_declares D.declares key.now most start n AtEnd text.now ≡ true)
        (told_fault result) }
{
    slices_are_read_whole();
    let frame = FrameReader::for_slice(alloc, key, most)?;
    let mut source = SliceSource::new(text);
    read_lines(frame, start, &mut source)
}

/// Reads the lines that the frame leaves to it, one after another.
fn read_lines<D: Declares + Drop, R: Source, A: Allocator>(
    mut frame: FrameReader<'_, A>,
    start: D,
    source: &mut R,
) -> Result<D, FaultAt<D::Word>>
    requires { frame ≡ frame_start frame.key frame.most frame.reader.left }
    ensures answer { Answered D.is_memory (R.rest source.old) (R.rest source.new)
        (text_said D.declares frame.entry.key frame.entry.most start)
        (Broken R.called (R.failed source.new) frame.entry.reader.left source.old source.new)
        (source.new ≡ source.old)
        (WantingAt D.declares frame.entry.key frame.entry.most start
        (R.rest source.old) (R.rest source.new))
        (told_fault result) }
    ensures calls { CallsAtMost R.called frame.entry.reader.left source.old source.new }
{
    let mut lines = start;
    let mut version: u8 = 1;
    'lines: loop {
        match frame.advance(source)? {
            FrameStep::Header(given) => version = given,
            FrameStep::Line => {
                if let Err(word) = lines.declare(version, frame.words()) {
                    return Err(FaultAt {
                        line: frame.number(),
                        kind: FaultKind::Word(word),
                    });
                }
            }
            FrameStep::End => return Ok(lines),
        }
    }
}
