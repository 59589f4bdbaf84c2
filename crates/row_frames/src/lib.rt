//! The engine's frame of a command that is read by its row: what is left of the row, where it stands in its first stage, and what it has read.
//!
//! A reading of the machine is the list of all that it was fed with; a frame stands behind such a list, and answers what the
//! machine's definition asks for. No call takes memory.
#![tactic(auto)]

mod conditions;
mod data;
mod effects;
mod frame;
mod stages;
mod turn;

pub use data::Data;
pub use effects::reads_under_normal;
pub use frame::RowFrame;
pub use turn::{Ask, Fed, Kept, note_due};
