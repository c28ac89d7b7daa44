//! The jobs of `run`, `check`, `codes` and `audit`, and of the program without words, over sources
//! and a sink.
#![tactic(auto)]

mod ahead;
mod audit;
mod check;
mod codes;
mod fault_line;
mod held;
mod job_fault;
mod pipe;
mod plan_part;
mod run;
mod run_checked;
mod script_part;
mod seen;
mod telling;

pub use audit::audit_job;
pub use check::check_job;
pub use codes::codes_job;
pub use fault_line::{write_fault, write_plan_fault, write_text_fault};
pub use job_fault::JobFault;
pub use pipe::pipe_job;
pub use run::run_job;
pub use run_checked::{run_checked_job, run_checked_telling_job};
pub use telling::run_telling_job;
