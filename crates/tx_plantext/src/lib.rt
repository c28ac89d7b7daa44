//! The text of a route plan, both ways.
//!
//! `read_plan` and `read_plan_from` take a text exactly where it keeps to the format, and else
//! report its first fault with its line. What `write_plan` writes reads back as the same plan.
//! `write_route` writes the line of one route, and `write_group_names` the groups at its end.
//! `write_changes` writes the lists of a plan that are other ones than before, and `write_new_list`
//! one of them.
//!
//! `revise` gives the text of a plan with the lists and the bars of another plan of its network:
//! each line that says the same stands as it is. The text that is made is read back before it is
//! kept. `first_difference` says in what two plans are not of one network.
#![tactic(auto)]

mod changed_lists;
mod declaring;
mod difference;
mod draft;
mod fault;
mod line_edits;
mod new_lists;
mod plan_line;
mod plan_reader;
mod plan_writer;
mod reading_back;
mod revising;
mod round_trip;
mod same_entries;
mod same_lines;
mod taking_over;
mod text_lines;

pub use changed_lists::{write_changes, write_new_list};
pub use declaring::declare;
pub use difference::{Difference, NetworkList, first_difference};
pub use fault::{PlanFault, PlanWord, code_and_name};
pub use plan_line::{LineFault, PlanLine};
pub use plan_reader::{KEY, VERSIONS, read_plan, read_plan_from};
pub use plan_writer::{write_group_names, write_plan, write_route};
pub use revising::{Unrevised, revise};
pub use round_trip::written_plans_read_back;
