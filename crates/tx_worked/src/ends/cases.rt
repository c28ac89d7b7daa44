// Cases of the program: at its ends, and where its words or arguments are refused when memory runs
// out.
use crate::cases::{EndCase, Log, Told, tell, tell_broken, tell_count};
use crate::ends::play::play;
use std::alloc::Global;
use std::io;
use std::io::ErrorKind;
use tx_program::{WordsFault, refuse_arguments, tell_words};

/// Writes what the program tells on standard error where something is wrong before there are words,
/// and its exit status: an argument is no text, or memory runs out for the arguments or for words.
pub(crate) fn play_arguments(alloc: Global, wrong: &[u8], out: &mut Told) {
    let mut errors = Vec::new(alloc);
    let status = match wrong {
        b"no-text" => refuse_arguments(&io::Error::from(ErrorKind::InvalidData), &mut errors),
        b"no-memory" => refuse_arguments(&io::Error::from(ErrorKind::OutOfMemory), &mut errors),
        b"no-memory-for-words" => {
            let mut output = Vec::new(alloc);
            let _ = tell_words(&WordsFault::NoMemory, &mut output, &mut errors);
            WordsFault::NoMemory.status()
        }
        _ => return tell_broken(b"nothing is wrong with the arguments", 0, out),
    };
    tell(errors.as_slice(), out);
    tell_count(b"status ", u64::from(status), b"\n", out);
}

/// Plays the program at its ends over the files of the folder, and tells all that happens there in
/// order: files opened and made, each read and what it gave, what each write took, each flush, and
/// then the exit status.
pub(crate) fn play_program(rt: &HostRuntime, head: &[u8], out: &mut Told) {
    let Ok(head) = str::from_utf8(head) else {
        return tell_broken(b"the head is no UTF-8 text", 0, out);
    };
    let log = Log::new(rt.alloc());
    let case = EndCase::read(rt.alloc(), head);
    play(rt, &case, &log);
    log.print(out);
}
