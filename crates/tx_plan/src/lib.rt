//! A route plan: its exchanges, destination codes, subscribers' lines, circuit groups, routes and
//! bars.
//!
//! A `PlanBuilder` takes one declaration after another, and refuses each that breaks a rule. A
//! `Plan` that it gives is never changed, and keeps the rules of all six lists. Exchanges, codes
//! and groups are spoken of by ids, which are indexes in the order of declaration.
//!
//! ```
//! fn two_exchanges(alloc: Global) -> Result<Plan, PlanRefusal> {
//!     let mut builder = PlanBuilder::new(alloc);
//!     builder.exchange(b"NORTH")?;
//!     builder.exchange(b"SOUTH")?;
//!     builder.code(b"22", b"NORTH")?;
//!     builder.code(b"24", b"SOUTH")?;
//!     builder.lines(b"22", b"31000", b"32999")?;
//!     builder.lines(b"24", b"51000", b"52999")?;
//!     builder.group(b"NOSO1", b"NORTH", b"SOUTH", Direction::BothWay, 6)?;
//!     builder.route(b"NORTH", b"24", words(b"NOSO1"))?;
//!     builder.route(b"SOUTH", b"22", words(b"NOSO1"))?;
//!     Ok(builder.finish())
//! }
//! ```
#![tactic(auto)]

mod builder;
mod copying;
mod entries;
mod figures;
mod ids;
mod limits;
mod names;
mod plan;
mod range;
mod refusal;
mod route_scan;
mod routes;

pub use builder::PlanBuilder;
pub use copying::{bars_of, routes_of};
pub use figures::three_figures;
pub use ids::{ByWord, Circuit, CodeId, Direction, ExchangeId, GroupId, Line, National, Pair};
pub use limits::Limits;
pub use names::NameKey;
pub use plan::Plan;
pub use range::LineRange;
pub use refusal::PlanRefusal;
pub use routes::{Bars, GroupList, Routes};
