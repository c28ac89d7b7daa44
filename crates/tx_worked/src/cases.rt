// The words that all players share: what a case says, what it prints beside what it has to print,
// why it stops, the ends that are watched, and an allocator that refuses a request.

mod case;
mod differing;
mod end_case;
mod ends;
mod head;
mod log;
mod outputs;
mod reader;
mod refusing;
mod spelled;
mod stop;
mod task;
mod told;
mod writer;

pub(crate) use case::{
    Case, cases_of, long_number, named, next_case, next_line, next_number, next_word, two_texts,
    without_lf,
};
pub(crate) use differing::tell_differing;
pub(crate) use end_case::{EndCase, What};
pub(crate) use ends::{Ends, FULL_ROOM, calls_left};
pub(crate) use head::{Head, Mode, head_of};
pub(crate) use log::Log;
pub(crate) use outputs::{event_word, says_no_event, takes_memory, written_after};
pub(crate) use reader::Reader;
pub(crate) use refusing::Refusing;
pub(crate) use spelled::spell;
pub(crate) use stop::{Stop, tell_stop};
pub(crate) use task::{MOMENT, Task, command_of, is_command};
pub(crate) use told::{Told, tell, tell_broken, tell_count, tell_parts};
pub(crate) use writer::Writer;
