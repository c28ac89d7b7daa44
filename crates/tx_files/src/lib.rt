//! What commands read, why they stop, and what goes into the files that they make.
#![tactic(auto)]

mod asked;
mod content;
mod ending;
mod fault;
mod fault_line;
mod left;
mod made;
mod missing;
mod names;
mod page_reading;
mod reading;
mod revising;
mod stopped;
mod two_plans;

pub use asked::{asked_of, passed_of};
pub use content::{Content, write_content};
pub use ending::Ending;
pub use fault::CommandFault;
pub use fault_line::{put_hint, write_command_fault};
pub use left::{PlansRead, while_down};
pub use made::{CounterScript, Made, MadeText, Shown};
pub use missing::{Missing, Named};
pub use names::{is_named, name_at};
pub use page_reading::{PageTexts, read_for_page};
pub use reading::{PlanRisks, read_one, read_with_risks};
pub use revising::text_if_asked;
pub use stopped::read_stopped;
pub use two_plans::{
    PlanText, PlansRisks, TwoPlans, WithOld, joined_of, read_plans, read_plans_with_risks,
    read_this, read_with_old,
};
