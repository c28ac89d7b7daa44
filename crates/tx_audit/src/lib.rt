//! The audit of a plan, the events that show what is wrong, and runs over the engine: of a list of
//! events, of a script, and of a script after a check.
#![tactic(auto)]

mod audited;
mod auditor;
mod checked;
mod checked_run;
mod counters;
mod first;
mod free_line;
mod judging;
mod playing;
mod script_writer;
mod simulating;
mod steps;
mod turns;

pub use audited::{AuditFault, Audited};
pub use auditor::audit;
pub use checked::Checked;
pub use checked_run::run_checked;
pub use counters::counter;
pub use first::first_counter;
pub use judging::judge;
pub use playing::{Played, play};
pub use script_writer::write_counter;
pub use simulating::simulate;
