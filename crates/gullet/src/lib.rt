//! The gullet: what becomes of a token that is expanded, how calls of macros begin and end, conditionals.
//!
//! *The TeXbook*, chapter 20; *TeX: The Program*, parts 25 (`expand`, `macro_call`) and 28 (`conditional`).
#![tactic(auto)]

mod call_name;
mod conditional;
mod expansion;
mod gathering;
mod relax;

pub use conditional::{choose, skip_on};
pub use expansion::{Once, call_of, enters_names, expand, expand_once, stays};
pub use gathering::{fail_call, put_call, run_away_call};
