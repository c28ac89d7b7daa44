// Plays the calls by their kinds.
use crate::cases::{Head, Told, tell_broken, two_texts};
use crate::tests::ends::{tell_ends, tell_reads, tell_rooms, tell_sources, tell_two_texts};
use crate::tests::frames::{play_calls, play_frame};
use crate::tests::growths::play_growths;
use crate::tests::lines::{Cuts, feed_anew, play_lines};
use crate::tests::plans::with_plan;
use crate::tests::readers::{tell_growths, tell_plan};
use crate::tests::spelling::tell_spellings;
use std::alloc::Global;
use tx_text::SliceSource;

/// Plays a case of calls, and writes what they answer.
pub(crate) fn play_call(alloc: Global, head: Head<'_>, text: &[u8], out: &mut Told) {
    let (least, most) = head.numbers();
    let (first, second) = (least as usize, most as usize);
    match head.word {
        b"words" | b"name" | b"figures" | b"number" => tell_spellings(head, text, out),
        b"lines" => play_lines(alloc, text, out),
        b"feed" => {
            let told = true;
            let cuts = Cuts {
                first,
                second,
                told,
            };
            feed_anew(alloc, text, cuts, out)
        }
        b"frame" => play_frame(alloc, text, out),
        b"frame-calls" => play_calls(alloc, text, first, out),
        b"source" => tell_sources(text, first, out),
        b"slice" => tell_reads(&mut SliceSource::new(text), 3, 8, out),
        b"two-texts" => tell_two_texts(alloc, text, first, u64::from(most), out),
        b"sink" => tell_rooms(alloc, text, out),
        b"ends" => tell_ends(head.first, out),
        b"declared" => {
            tell_plan(alloc, false, out);
            tell_plan(alloc, true, out);
            tell_growths(alloc, out)
        }
        b"growths" => play_growths(alloc, head.first, text, out),
        b"trie" | b"book" | b"many-lines" | b"circuits" | b"sequences" => {
            let (plan, calls) = two_texts(text);
            with_plan(alloc, head.word, plan, calls, out)
        }
        _ => tell_broken(b"no such kind of case", 0, out),
    }
}
