//! Pages of HTML, on which no text of a plan is markup.
#![tactic(auto, using(crate::proofs::Showing::own_sets, crate::proofs::Showing::text_sets, crate::proofs::Showing::sets_none, crate::proofs::Showing::list_done))]

mod amount;
mod escaped;
mod law;
mod page_sink;
mod part;
mod path;

pub use law::no_text_is_markup;
pub use page_sink::{PageSink, set};
pub use part::Part;
pub use path::{Path, Point, Segment};
