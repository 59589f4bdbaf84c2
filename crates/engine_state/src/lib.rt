//! The engine of a run: what it keeps of the plain machine's state, its next token, its reports, its open readings and its
//! open conditionals.
//!
//! An [`Engine`] stands for a state of the plain machine (`AllStand` in `specs`, beside a `Book`). Each of its calls says which moves of the
//! machine it makes, what it writes, and where it was cut off. *TeX: The Program*, parts 6, 22 to 25 and 28.
#![tactic(auto)]

mod check;
mod conditional;
mod engine;
mod files;
mod front;
mod groups;
mod lists;
mod meaning;
mod names;
mod next;
mod outcome;
mod readings;
mod text;
mod values;
mod views;
mod writing;

pub use check::PAR;
pub use engine::Engine;
pub use meaning::name_of;
pub use names::name;
pub use outcome::{Last, Next, Ruled, stops};
pub use plain_machine::Broken;
pub use text::Made;
