//! What each command does: its texts are read, it comes to an answer, the answer is printed, and it says
//! what goes into its files. The jobs of `run`, `check`, `codes` and `audit` are in `tx_jobs`.
#![tactic(auto)]

mod auditing;
mod carrying;
mod change;
mod compare;
mod doing;
mod explain;
mod explained;
mod fill;
mod grade;
mod law;
mod linting;
mod mend;
mod order;
mod page;
mod page_change;
mod page_codes;
mod page_found;
mod page_shown;
mod request;
mod running;
mod survive;
mod through;
mod trace;
mod way_changes;

pub use compare::{Compared, Outlook};
pub use doing::{do_command, down_of};
pub use explained::codes_are_explained;
pub use fill::Filled;
pub use law::told_lines_declare;
pub use order::Switched;
pub use page::{Paged, show_page};
pub use page_change::FoundChange;
pub use page_found::Found;
pub use request::Request;
pub use through::Passed;
pub use trace::Traced;
