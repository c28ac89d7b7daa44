// Plays the program at its ends, over files and ends that are watched, and where its words or
// arguments are refused when memory runs out.

mod asked;
mod cases;
mod play;
mod stage;

pub(crate) use cases::{play_arguments, play_program};
