//! The texts of the product: their bytes, lines and words.
//!
//! A text comes from a `Source` in pieces, or is in a slice. `LineFeeder` cuts pieces into lines,
//! and `FrameReader` keeps the header, END and the numbers of lines. `read_text` reads a text of
//! which each line declares something, and `read_whole_text` the bytes of a text. A text goes to a
//! `Sink` part by part, by `put_bytes` and `put_parts`, and then `finish` tells whether it failed.
#![tactic(auto)]

mod feeder;
mod figures;
mod frame;
mod from_read;
mod line;
mod line_words;
mod lines;
mod memory_sink;
mod memory_source;
mod name;
mod no_memory;
mod pieces;
mod reader;
mod reading;
mod sink;
mod slice_source;
mod source;
mod split;
mod text_fault;
mod to_write;
mod whole_text;

pub use feeder::{Fed, LineFeeder};
pub use figures::{Figures, InlineBytes, are_figures, number};
pub use frame::{
    FaultAt, FaultKind, FrameFault, FramePart, FrameReader, FrameStep, FrameStop, LineForm,
    SOURCE_CALLS, closing, is_end, last_fault, look,
};
pub use from_read::FromRead;
pub use line::TextLine;
pub use line_words::Words;
pub use lines::{Lines, first_line};
pub use memory_sink::MemorySink;
pub use memory_source::MemorySource;
pub use name::{Name, is_name};
pub use no_memory::NoMemory;
pub use pieces::pieces_give_the_lines;
pub use reader::{bytes_fault, lf_or_len, without_cr};
pub use reading::{Declares, read_slice, read_text};
pub use sink::{Sink, WriteFault, finish, put_bytes, put_parts, write_bytes};
pub use slice_source::{SliceSource, slices_are_read_whole};
pub use source::{ReadFault, Source};
pub use split::words;
pub use text_fault::TextFault;
pub use to_write::ToWrite;
pub use whole_text::{WholeTextFault, read_whole_text};
