// Calls of the crates below the jobs: plays a case by its kind, and writes what the calls answer. A
// plan stands before a line `---`.
//
// - `words`, `name`, `figures LEAST MOST` and `number MOST` tell what each line of the text is.
// - `lines` tells the lines of the text. A short one is then fed in all three pieces into which it
//   can be cut, which has to make no difference. `feed FIRST SECOND` tells each call of the feeder,
//   with cuts after so many bytes, and the calls after a fault.
// - `frame` tells the header, the lines and the end of a text of plans, as a slice, and then from
//   sources of 1, 2, 7 and 4,096 bytes a call, which has to make no difference. `frame-calls PIECE`
//   tells the same where each call of the source fails in turn.
// - `source PIECE` tells eight calls of a source, of which each fails in turn, and `slice` three
//   calls of a slice. `two-texts PIECE FAILS` runs a plan and a script of one input, whose call
//   FAILS fails, where it is not 0, and tells each call of the input, for how many bytes and with
//   which, and what is written in between. `sink` writes the text to each room, whole and in parts.
//   `ends` has no text: it moves bytes by std's readers and writers, which fail, or are interrupted
//   where its head says `interrupted`.
// - `declared` has no text: it declares a small plan, and writes what its readers answer, how much
//   a plan holds, and which declarations take memory.
// - `trie` has a plan, and figures of which the code is read. `book` has a plan, and lines with a
//   code's index, a number and what happens to the line, and tells what is found there.
//   `many-lines` has a plan and two numbers, marks the lines of the first code between them, and
//   writes how many are found marked.
// - `circuits` has a plan of one group, and calls on its circuits, and writes which number each end
//   would take next, before the first call and after each; and before the first, that nothing is
//   marked.
// - `sequences` has a plan of one group of three circuits, and compares all sequences of three
//   calls with a plain model.
// - `growths TYPE` has a plan, and makes a feeder, a sink, or a trie, a book or a table over the
//   plan, with each request for memory refused in turn. It tells how many requests are not the
//   plan's.

mod book;
mod circuits;
mod ends;
mod flaky;
mod frames;
mod growths;
mod lines;
mod plans;
mod play;
mod readers;
mod spelling;
mod trie;
mod watched;

pub(crate) use play::play_call;
