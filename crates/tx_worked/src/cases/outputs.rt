// What the output and the script of a run tell of its events.
use crate::cases::case::{next_line, without_lf};
use tx_text::words;

/// How many bytes of the output are that of the first so many events: their replies, each with the
/// tickets after it. The line END EVENTS counts as one more.
pub fn written_after(output: &[u8], events: u64) -> usize {
    let mut rest = output;
    let mut left = events;
    for _ in 0..output.len() {
        let Some((_, after)) = next_line(rest) else {
            break;
        };
        if left == 0 {
            break;
        }
        if !after.starts_with(b"T ") {
            left = left.saturating_sub(1);
        }
        rest = after;
    }
    output.len().saturating_sub(rest.len())
}

/// The first word of the line that says an event of a script, counted from 1.
pub fn event_word(script: &[u8], event: u64) -> &[u8] {
    let mut left = event;
    for line in script.split_inclusive(|byte| *byte == b'\n') {
        if let Some(word) = words(without_lf(line)).next() {
            if left == 0 {
                return word;
            }
            left = left.saturating_sub(1);
        }
    }
    b""
}

/// Whether an event of this first word takes memory: a call that is keyed or routed, and a line
/// that gets a status.
pub fn takes_memory(word: &[u8]) -> bool {
    matches!(word, b"KEY" | b"ROUTE" | b"FAULT" | b"AWAY")
}

/// Whether a line of a script says no event: it has no words, or is the header or END.
pub fn says_no_event(line: &[u8]) -> bool {
    matches!(words(line).next(), None | Some(b"SCRIPT" | b"END"))
}
