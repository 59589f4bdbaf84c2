//! The program over any files and sink: `top`.
#![tactic(auto)]

mod program;
mod run;
mod tell;

pub use program::top;
