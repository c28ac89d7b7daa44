//! The pictures on a page, in SVG: the lists for each code, and the network. `picture_of` says where
//! the exchanges of a code stand, in points.
#![tactic(auto, using(crate::proofs::Texts::showing))]

mod arrows;
mod boxes;
mod columns;
mod findings;
mod frame;
mod names;
mod picture;
mod pictures;
mod ranks;
mod ring;
mod rows;
mod rows_printed;
mod seats;
mod spot;
mod ways;

pub use arrows::HEADS;
pub use names::write_groups;
pub use picture::{Picture, picture_of};
pub use pictures::write_pictures;
pub use ring::write_ring;
