//! What a page shows of a change: numbers of both plans, the stages, and the work at each exchange.
#![tactic(auto, using(crate::proofs::Texts::showing))]

mod between;
mod change;
mod counts;
mod crews;
mod entry;
mod numbers;
mod outlook;
mod rows;
mod stages;
mod steps;
mod table;
mod way;
mod worst;

pub use change::{Change, write_change};
pub use counts::{count_circuits, count_lines, count_origins, lines_of};
pub use crews::write_crews;
pub use numbers::{Numbers, are_worse, numbers_of};
pub use outlook::Outlook;
pub use rows::{is_any, write_label, write_measure, write_outcomes, write_pair};
pub use way::{has_way, write_way};
pub use worst::worst_of;
