//! The change of a plan into another one, list by list: ranks that certify every plan that may be
//! in force during the change, or what is wrong with one of them, and the mixture that shows it.
#![tactic(auto)]

mod change_routes;
mod changing;
mod joined;
mod judging;
mod law;
mod mixing;
mod mixture;
mod report;
mod showing;
mod taking;

pub use change_routes::ChangeRoutes;
pub use changing::change;
pub use joined::JoinedLists;
pub use judging::{ChangeVerdict, judge_change};
pub use law::{closed_codes_stay, findings_show_mixtures};
pub use mixing::{Lists, Mixing, mixed_lists};
pub use mixture::{ShownMixture, first_mixture, new_plan_shown};
pub use report::{write_change, write_findings_after, write_verdict_after};
pub use showing::shown;
