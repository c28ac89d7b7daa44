//! The ranking of a plan: a certificate that it is safe for a transit limit and a spare number, or
//! what is wrong with it.
//!
//! `rank` finds a certificate wherever there is one. Else it answers the ambiguous pair of codes,
//! and for each code a loop, or a walk to each short list and one that is too long; the lists of
//! the plan allow each walk.
//!
//! `grade` says for which limits and spare numbers there is one. `write_report` and `write_grade`
//! write what was found.
//!
//! ```
//! /// Whether no call passes a transit, with no group to spare.
//! fn is_direct(alloc: Global, plan: &Plan) -> Result<bool, NoMemory> {
//!     match rank(alloc, plan, 0, 0)? {
//!         Ranking::Found(_) => Ok(true),
//!         Ranking::Fails(_) => Ok(false),
//!     }
//! }
//! ```
#![tactic(auto)]

mod back_links;
mod bounds;
mod certifiable;
mod code_bounds;
mod code_ranking;
mod code_routes;
mod distances;
mod explore;
mod finding;
mod grade_text;
mod grading;
mod list_scan;
mod long_walk;
mod mark;
mod marks;
mod plan_grade;
mod ranking;
mod reaching;
mod report;
mod routes;
mod short_walks;
mod walk;
mod written;

pub use bounds::Bounds;
pub use certifiable::can_be_certified;
pub use code_ranking::rank_code;
pub use code_routes::origins_of;
pub use finding::Finding;
pub use grade_text::write_grade;
pub use grading::grade;
pub use marks::is_marked;
pub use plan_grade::Grade;
pub use ranking::{Ranking, pair_found, rank};
pub use reaching::{far, reached};
pub use report::{write_asked, write_finding, write_no, write_report, write_steps, write_verdict};
pub use routes::CodeNet;
pub use walk::Walk;
