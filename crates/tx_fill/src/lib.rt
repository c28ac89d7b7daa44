//! How many calls for a code an exchange can have at once: calls from there are set up one after
//! another, each as far as it comes, until one is not connected.
#![tactic(auto)]

mod call_lines;
mod carrying;
mod fill_text;
mod filling;
mod law;

pub use fill_text::write_fill;
pub use filling::{Fill, set_up_calls};
pub use law::open_calls_are_connected;
