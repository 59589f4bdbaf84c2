//! The stomach: what becomes of tokens that aren't expanded, what commands do, and runs of the machine's rules.
//!
//! [`run_steps`] goes on for at most so many steps, and reads and opens files as they need it. *The TeXbook*,
//! chapter 24; *TeX: The Program*, parts 46 and 49 (`main_control`, `prefixed_command`).
#![tactic(auto)]

mod ahead;
mod conditional;
mod define;
mod early;
mod effects;
mod ends;
mod files;
mod innermost;
mod lists;
mod naming;
mod obeying;
mod rules;
mod runs;

pub use early::Early;
pub use runs::{Ended, run_steps};
