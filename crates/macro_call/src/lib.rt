//! The arguments of a macro call, matched token by token against the macro's parameter text.
//!
//! *The TeXbook*, chapter 20; *TeX: The Program*, part 25 (`macro_call`). The macro's list isn't copied: the scanner
//! keeps a place in it. The arguments are lists of their own.
#![tactic(auto)]

mod ask;
mod braces;
mod builds;
mod cursor;
mod laws;
mod matches;
mod present;
mod scan;
mod tokens;

pub use ask::CallAsk;
pub use cursor::{Cursor, at_first, at_first_built};
pub use laws::{
    arguments_are_shortest, calls_end_at_once, checks_show_at_pars, delimited_lists_are_balanced,
    matches_restart, one_group_loses_braces, scanners_have_lists, scans_gather, worked_calls,
    worked_growths,
};
pub use present::{Present, Step};
pub use scan::ArgScan;
