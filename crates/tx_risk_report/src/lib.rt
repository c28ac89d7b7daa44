//! The report of outages, and events that show whom a risk cuts off.
#![tactic(auto, using(crate::proofs::Texts::putting))]

mod comparison;
mod cut_lines;
mod differing;
mod law;
mod outage_report;
mod totals;

pub use comparison::{
    Comparison, count_better_outages, count_worse_outages, is_against, write_comparison,
};
pub use law::cut_is_shown;
pub use outage_report::write_survival;
pub use totals::{Kind, count_cut, count_stray, is_harmless};
