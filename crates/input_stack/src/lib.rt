//! The levels of input: what is still to be read, lists in front of lines.
//!
//! *TeX: The Program*, part 22 (input stacks and states). The lists stand in a memory of lists that is handed to each
//! call; a level keeps a holder of its list, and is at the place of the next token.
#![tactic(auto)]

mod call;
pub mod laws;
pub mod level;
mod levels;
mod line;
mod met;
mod pull;
mod reader;
mod release;
mod stack;

pub use level::{Begun, Pulled, Source};
pub use line::line_in;
pub use stack::InputStack;
