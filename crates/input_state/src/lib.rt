//! All lists of a run, and all that is still to be read.
//!
//! The lists stand in one main memory, and the lists in front and the job's file in levels of input. Callers see plain
//! lists: those in front with the rest of the line and of the file, the one that is being made, and those that are
//! gathered. What stands at all locations is here too, since a macro's list is shared by the names that mean it and by the calls that read its
//! body: it is let go with the last of them. All room is reserved by [`Input::new`]: no other call takes memory.
//!
//! *TeX: The Program*, part 22 (input stacks and states) and part 24 (getting the next token).
#![tactic(auto)]

mod answer;
mod appending;
mod bytes;
mod file;
mod gathering;
mod holders;
mod lines;
mod lists_held;
mod places;
mod state;
mod walk;

pub use answer::{Call, CallEnd, CallKind, Pulled};
pub use state::Input;
pub use walk::{Walk, walks_stay};
