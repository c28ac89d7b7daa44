//! The program: what it does for the words of the command line over a folder of files and its
//! standard ends. It re-exports the commands.
#![tactic(auto)]

mod draft;
mod ends;
mod file_id;
mod folder;
mod input;
mod kind;
mod new_file;
mod output_files;
mod program;
mod stop;
mod targets;
mod tell;

pub use draft::Draft;
pub use folder::Folder;
pub use program::{Ends, run_command, run_words};
pub use tell::{refuse_arguments, tell_words};
pub use tx_commands::{Command, FileId, WordsFault, read_command};
