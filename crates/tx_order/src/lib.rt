//! An order in which the lists and bars of a plan are switched to those of another one of the same
//! network, stage by stage, so that each stage is safe in whatever order its lists and bars are
//! switched, with calls up.
//!
//! `order` finds one wherever both plans can be certified. Else it answers what is wrong with each
//! of them. `judge_order` takes plans of any two networks, over their joined network, and
//! `write_order` writes what it found. `stage_of` gives the plan after a stage with a certificate of
//! the stage, and `plan_stopped` the plan in the middle of one: `read_done` reads what is switched.
#![tactic(auto)]

mod between;
mod done;
mod entries;
mod fronts;
mod joining;
mod judging;
mod law;
mod level;
mod lists;
mod orders;
mod report;
mod staged;
mod stages;
mod switching;
mod transition;

pub use done::{DoneFault, DoneWord, code_and_name, read_done};
pub use judging::{OrderVerdict, judge_order};
pub use law::{
    each_level_is_common, each_plan_is_certified, levels_lead_over, ordered_exactly,
    orders_are_sound, orders_lead_over, stages_are_fewest,
};
pub use orders::Order;
pub use report::write_order;
pub use staged::{missing_stage, plan_stopped, stage_of, stages_without};
pub use switching::{Switching, order};
