//! The lines of files, streamed through one buffer.
//!
//! Each open reader has a window of 256 bytes; lines are cut from the windows into the one buffer, which holds all
//! open lines, innermost last, and behind them a name that is being spelt. All room is reserved by [`Buffer::new`]:
//! no other call takes memory, but for the calls on the files that are handed in. A [`Reader`] gives the pieces
//! themselves, for a caller that keeps its lines elsewhere, and [`Readers`] those of all files that are open.
//!
//! *TeX: The Program*, part 3 (`buffer`, `first`, `last` and `input_ln`); *The TeXbook*, chapter 8.
#![tactic(auto)]

mod buffer;
mod edit;
mod ends;
mod reader;
mod readers;
mod reading;
mod window;
mod windows;

pub use buffer::Buffer;
pub use edit::Edit;
pub use reader::Reader;
pub use readers::Readers;
pub use reading::{at_end, next_line};
