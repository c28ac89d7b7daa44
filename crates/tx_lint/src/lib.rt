//! The faults of a plan's text, as an editor shows them: all at once, each with its line and the
//! word at fault, and one that only comes from another one counted there; or, if it has none,
//! warnings of what is useless in the plan or most likely not meant.
#![tactic(auto)]

mod alone;
mod at_fault;
mod entry;
mod escaped;
mod fault;
mod gathering;
mod law;
mod lines;
mod lint_text;
mod linting;
mod marks;
mod warning;
mod warnings;
mod word_tests;

pub use escaped::write_escaped;
pub use fault::Fault;
pub use gathering::Told;
pub use law::{faults_agree_with_reader, no_fault_is_lost};
pub use lint_text::write_lint;
pub use linting::{Lint, Look, RightText, lint_plan, look_through};
pub use warning::Warning;
