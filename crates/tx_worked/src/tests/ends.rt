// Sources and sinks, over memory and over std's readers and writers.
use crate::cases::{Log, Told, tell, tell_broken, tell_count, tell_parts};
use crate::run_laws::tell_summary;
use crate::tests::flaky::Flaky;
use crate::tests::watched::{WatchedSink, WatchedSource};
use std::alloc::Global;
use std::io::ErrorKind;
use tx_jobs::{pipe_job, write_fault};
use tx_text::{
    FromRead, MemorySink, MemorySource, Sink, Source, ToWrite, WriteFault, finish, put_parts,
    write_bytes,
};

/// Makes a call of a source, for so many bytes, and writes what it gives.
fn tell_read<R: Source>(source: &mut R, room: usize, out: &mut Told) {
    let mut buf = [0; 16];
    match source.read(buf.split_at_mut(room.clamp(1, 16)).0) {
        Ok(n) => tell_parts(&[b"[", buf.split_at(n.min(16)).0, b"] "], out),
        Err(_) => tell(b"fault ", out),
    }
}

/// Makes calls of a source, each for so many bytes, and writes what they give.
pub(crate) fn tell_reads<R: Source>(source: &mut R, calls: u8, room: usize, out: &mut Told) {
    for _ in 0..calls {
        tell_read(source, room, out);
    }
    tell(b"\n", out);
}

/// Calls of a source, of which each fails in turn.
pub(crate) fn tell_sources(text: &[u8], piece: usize, out: &mut Told) {
    for fails_at in 1..=8u64 {
        let mut source = MemorySource::new(text, piece.max(1), Some(fails_at));
        tell_reads(&mut source, 8, 4, out);
    }
}

/// Runs the job of an input of two texts, which gives pieces of so many bytes, and of which the
/// call of a number fails, where it is not 0. Tells each call of the input, what is written between
/// them, and how the job ends.
pub(crate) fn tell_two_texts(alloc: Global, text: &[u8], piece: usize, fails: u64, out: &mut Told) {
    let log = Log::new(alloc);
    let fails_at = if fails > 0 { Some(fails) } else { None };
    let mut input = WatchedSource {
        source: MemorySource::new(text, piece.max(1), fails_at),
        log: &log,
    };
    let ran = pipe_job(alloc, &mut input, &mut WatchedSink { log: &log });
    log.print(out);
    match ran {
        Ok(summary) => tell_summary(&summary, out),
        Err(fault) => {
            let _ = write_fault(&fault, out);
        }
    }
}

/// Writes what a sink took, and whether it took all that it was given.
fn tell_taken(taken: &[u8], answer: Result<(), WriteFault>, out: &mut Told) {
    let end = match answer {
        Ok(()) => b"] all, ".as_slice(),
        Err(WriteFault) => b"] fault, ",
    };
    tell_parts(&[b"[", taken, end], out);
}

/// Writes a text to a sink, and then a byte more.
fn tell_whole(sink: &mut MemorySink, text: &[u8], out: &mut Told) {
    let answer = write_bytes(text, sink);
    tell_taken(sink.taken(), answer, out);
    let more = sink.write(b"A").is_ok();
    tell(
        if more {
            b"more, ".as_slice()
        } else {
            b"fault, "
        },
        out,
    );
}

/// Writes a text to a sink by parts, of which one is empty.
fn tell_by_parts(sink: &mut MemorySink, text: &[u8], out: &mut Told) {
    let (front, back) = text.split_at(text.len().min(6));
    let (second, back) = back.split_at(back.len().min(1));
    let (third, fourth) = back.split_at(back.len().min(2));
    put_parts(&[front, second, b"", third, fourth], sink);
    let answer = finish(sink);
    tell_taken(sink.taken(), answer, out);
    tell(b"by parts\n", out);
}

/// Writes a text to a room, whole or by parts.
fn tell_room(alloc: Global, text: &[u8], room: usize, by_parts: bool, out: &mut Told) {
    match MemorySink::new(alloc, room) {
        Ok(mut sink) if by_parts => tell_by_parts(&mut sink, text, out),
        Ok(mut sink) => tell_whole(&mut sink, text, out),
        Err(_) => tell_broken(b"no memory", 0, out),
    }
}

/// Writes a text to each room, from none to more than it takes.
pub(crate) fn tell_rooms(alloc: Global, text: &[u8], out: &mut Told) {
    for room in 0..=text.len().saturating_add(2) {
        tell_count(b"", room as u64, b": ", out);
        tell_room(alloc, text, room, false, out);
        tell_room(alloc, text, room, true, out);
    }
}

/// Calls of a writer, each with two bytes, and how many it takes.
fn tell_writes(takes: usize, why: ErrorKind, out: &mut Told) {
    let mut sink = ToWrite::new(Flaky::new(takes, why));
    for _ in 0..4u8 {
        match sink.write(b"AB") {
            Ok(n) => tell_count(b"", n as u64, b" ", out),
            Err(WriteFault) => tell(b"fault ", out),
        }
    }
    tell(b"\n", out);
}

/// Calls of std's readers and writers that fail in one way: how many of a reader were counted, and
/// those of a writer of one byte a call, and of one that takes nothing.
fn tell_failing(why: ErrorKind, out: &mut Told) {
    let mut source = FromRead::new(Flaky::new(1, why));
    tell_reads(&mut source, 4, 4, out);
    tell_count(b"", source.calls(), b" calls\n", out);
    tell_writes(1, why, out);
    tell_writes(0, why, out);
}

/// Calls of std's readers and writers that fail, or that are interrupted where the head of the case
/// says so.
pub(crate) fn tell_ends(how: &[u8], out: &mut Told) {
    if how == b"interrupted".as_slice() {
        tell_failing(ErrorKind::Interrupted, out);
    } else {
        tell_failing(ErrorKind::Other, out);
    }
}
