// Framed texts from sources in pieces, and from slices.
ghost use Rattle.std.specs.Prelude.{◌≡◌, IfOk, None};

use crate::cases::{Told, tell, tell_broken, tell_count, tell_parts};
use crate::tests::lines::fault_name;
use crate::tests::spelling::tell_words;
use std::alloc::Global;
use tx_text::{
    FrameFault, FrameReader, FrameStep, FrameStop, MemorySource, SliceSource, Source, TextFault,
};

fn frame_name(fault: FrameFault) -> &'static [u8] {
    match fault {
        FrameFault::LineTooLong => fault_name(TextFault::LineTooLong),
        FrameFault::BadByte => fault_name(TextFault::BadByte),
        FrameFault::NoMemory => fault_name(TextFault::NoMemory),
        FrameFault::Read => b"Read",
        FrameFault::NoHeader => b"NoHeader",
        FrameFault::NoEnd => b"NoEnd",
        FrameFault::AfterEnd => b"AfterEnd",
    }
}

/// Tells a header, an end, or a fault.
fn tell_step(step: Result<FrameStep, FrameStop>, out: &mut Told) {
    match step {
        Ok(FrameStep::Header(version)) => tell_count(b"header ", u64::from(version), b"\n", out),
        Ok(FrameStep::Line) => {}
        Ok(FrameStep::End) => tell(b"end\n", out),
        Err(stop) => {
            tell_count(b"line ", stop.line, b": ", out);
            tell_parts(&[frame_name(stop.fault), b"\n"], out);
        }
    }
}

/// Tells the header, the lines and the end of a text, or the fault that stops it.
fn tell_frame<R: Source>(reader: &mut FrameReader<'_>, source: &mut R, out: &mut Told)
    requires { reader.old.reader.feed.fault ≡ None }
{
    for _ in 0..99u8 {
        let step = reader.advance(source);
        match step {
            Ok(FrameStep::Line) => {
                tell_count(b"line ", reader.number(), b", ", out);
                tell_words(&reader.words(), out);
            }
            _ => tell_step(step, out),
        }
        if let Ok(FrameStep::End) | Err(_) = step {
            break;
        }
    }
}

/// Tells a text of plans that a source gives to a new reader.
fn tell_source<R: Source>(
    reader: Result<FrameReader<'_>, FrameStop>,
    source: &mut R,
    out: &mut Told,
)
    requires { IfOk reader (λ r. r.reader.feed.fault ≡ None) }
{
    match reader {
        Ok(mut reader) => tell_frame(&mut reader, source, out),
        Err(_) => tell_broken(b"no memory", 0, out),
    }
}

/// Reads a text by a source of so many bytes a call, which has to make no difference.
fn try_piece(alloc: Global, text: &[u8], piece: usize, whole: &[u8], out: &mut Told) {
    let mut told = Told::new(alloc);
    let mut source = MemorySource::new(text, piece.max(1), None);
    tell_source(FrameReader::new(alloc, b"PLAN", 2), &mut source, &mut told);
    if !told.is(whole) {
        tell_broken(b"not the same in pieces of", piece as u64, out);
    }
}

/// Tells a text of plans, as a slice and from sources.
pub(crate) fn play_frame(alloc: Global, text: &[u8], out: &mut Told) {
    let mut whole = Told::new(alloc);
    let reader = FrameReader::for_slice(alloc, b"PLAN", 2);
    tell_source(reader, &mut SliceSource::new(text), &mut whole);
    tell(whole.text(), out);
    for piece in [1usize, 2, 7, 4096] {
        try_piece(alloc, text, piece, whole.text(), out);
    }
}

/// Tells a text of plans from a source of which each of five calls fails in turn.
pub(crate) fn play_calls(alloc: Global, text: &[u8], piece: usize, out: &mut Told) {
    for call in 1..=5u64 {
        tell_count(b"call ", call, b" fails\n", out);
        let mut source = MemorySource::new(text, piece.max(1), Some(call));
        tell_source(FrameReader::new(alloc, b"PLAN", 2), &mut source, out);
    }
}
