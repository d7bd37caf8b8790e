//! The frame of a picture: a description whose geometry is right, and the plans of its lines.
//!
//! A line is cut into pieces, each of which one instruction moves. The rules by which a description is
//! checked and a line is cut are this project's own.
#![tactic(auto)]

mod cut;
mod frame;
mod judge;
mod lines;
mod memory;
mod offsets;
mod places;
mod stretch;

pub use cut::{Pieces, RowSpans};
pub use frame::Frame;
pub use judge::BuildError;
pub use picture_model::{BuildFault, Piece, PieceKind};
pub use stretch::WholeRow;
