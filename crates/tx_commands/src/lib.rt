//! The commands of the program, and the words of the command line that ask for them; and what the
//! codes of faults, warnings, refusals, findings and causes and the words of reports mean, and what
//! to do about each.
#![tactic(auto)]

mod arguments;
mod audit;
mod change;
mod check;
mod clashes;
mod code_table;
mod codes;
mod command;
mod down;
mod explain;
mod explanation;
mod fault;
mod files;
mod fill;
mod given;
mod grade;
mod grammar;
mod known_file;
mod known_words;
mod lint;
mod mend;
mod misuse;
mod order;
mod page;
mod place;
mod plan_codes;
mod reading;
mod report_words;
mod run;
mod run_codes;
mod run_words;
mod subcommand;
mod survive;
mod text_faults;
mod trace;
mod way_words;

pub use audit::AuditRequest;
pub use change::ChangeRequest;
pub use check::CheckRequest;
pub use codes::CodesRequest;
pub use command::Command;
pub use down::Down;
pub use explain::ExplainRequest;
pub use explanation::write_explanation;
pub use fault::WordsFault;
pub use files::{Files, STANDARD_INPUT};
pub use fill::FillRequest;
pub use grade::GradeRequest;
pub use grammar::VERSION;
pub use known_file::{FileId, KnownFile, clash};
pub use lint::LintRequest;
pub use mend::MendRequest;
pub use order::{OrderRequest, Stopped};
pub use page::PageRequest;
pub use place::Place;
pub use reading::read_command;
pub use run::{RunRequest, TellingRequest};
pub use survive::{CompareRequest, SurviveRequest};
pub use trace::{ThroughRequest, TraceRequest, WaysRequest};
