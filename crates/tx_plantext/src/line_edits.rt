// A line, and the same line with other words.
use std::alloc::Allocator;
use tx_text::{NoMemory, without_cr, words};

/// Appends bytes to a text.
pub fn add<A: Allocator>(text: &mut Vec<u8, A>, bytes: &[u8]) -> Result<(), NoMemory> {
    text.extend_from_slice(bytes)?;
    Ok(())
}

/// Appends a line with this CR, and its LF.
pub fn add_line<A: Allocator>(
    text: &mut Vec<u8, A>,
    line: &[u8],
    cr: &[u8],
) -> Result<(), NoMemory> {
    add(text, line)?;
    add(text, cr)?;
    add(text, b"\n")
}

/// The CR at the end of a line, if it has one.
pub fn cr_of(line: &[u8]) -> &[u8] {
    match line {
        [.., b'\r'] => b"\r",
        _ => b"",
    }
}

/// What stands behind the last word of a line.
fn tail_of(line: &[u8]) -> &[u8] {
    let mut words = words(line);
    'words: while words.next().is_some() {}
    words.rest()
}

/// Appends what stands behind the words of a line, in a line of its own, if anything does.
pub fn add_tail<A: Allocator>(text: &mut Vec<u8, A>, line: &[u8]) -> Result<(), NoMemory> {
    let tail = tail_of(without_cr(line));
    if tail.is_empty() {
        return Ok(());
    }
    add_line(text, tail, cr_of(line))
}

/// Appends a line with these words in place of its own. Its tail and its CR stay. Where it would be
/// longer than a line may be, the tail has the line before it.
pub fn respell<A: Allocator>(
    text: &mut Vec<u8, A>,
    spelled: &[u8],
    line: &[u8],
) -> Result<(), NoMemory> {
    let tail = tail_of(without_cr(line));
    if tail.len() <= 512 && spelled.len() + tail.len() <= 512 {
        add(text, spelled)?;
        return add_line(text, tail, cr_of(line));
    }
    add_line(text, tail, cr_of(line))?;
    add_line(text, spelled, cr_of(line))
}
