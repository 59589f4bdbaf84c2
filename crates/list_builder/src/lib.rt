//! The lists of macros and balanced texts, built token by token.
//!
//! *The TeXbook*, chapter 20; *TeX: The Program*, part 27 (`scan_toks`). A scanner reads nothing itself: it is fed with
//! tokens, and answers what it wants next, a report, or the list that was built.
#![tactic(auto)]

mod ask;
mod cells;
mod def;
mod laws;
mod scan;
mod stage;
mod text;

pub use ask::{Ask, Due};
pub use def::DefScan;
pub use laws::{lists_are_formed, lists_end_at_once, plain_lists_are_themselves, worked_lists};
pub use stage::{Next, Stage, Step};
pub use text::TextScan;
