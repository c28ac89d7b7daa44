//! A script: events as lines of text, and the run that plays them over a network.
//!
//! `run` takes any `Network` that was made for the plan, and writes the reply to each event and
//! then the tickets of the calls that it ended. `read_event` and `write_event` are one line, both
//! ways.
//!
//! ```
//! fn run_one_call<N: Network>(
//!     alloc: Global,
//!     plan: &Plan,
//!     network: &mut N,
//!     sink: &mut MemorySink,
//! ) -> Result<Summary, RunFault> {
//!     let script = b"SCRIPT 1\nKEY 22 31000 2451000\nROUTE 1\nEND\n";
//!     run(alloc, plan, network, &mut SliceSource::new(script), sink)
//! }
//! ```
//!
//! Over an engine of the plan in tx_plan's example, the sink then has `KEYED 1`, `SEIZED NOSO1.1`
//! and `END EVENTS 2 OPEN 1`.
#![tactic(auto)]

mod counts;
mod ending;
mod event_line;
mod event_text;
mod event_words;
mod group_use;
mod run_cause;
mod run_fault;
mod runner;
mod script_word;
mod summary;
mod summary_text;
mod teller;

pub use event_line::{event_lines_read_back, read_event};
pub use event_text::{write_any_event, write_event};
pub use run_cause::RunCause;
pub use run_fault::RunFault;
pub use runner::{run, run_telling};
pub use script_word::{ScriptFault, ScriptKind, ScriptWord, code_and_name};
pub use summary::Summary;
pub use teller::Telling;
