//! The arguments of a macro call, which hold their lists (*The TeXbook*, chapter 20).
#![tactic(auto)]

mod args;
mod cells;

pub use args::Args;
