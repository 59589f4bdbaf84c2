//! The texts that the machine writes of itself, each composed and written to a sink at once: messages, reports, token lines,
//! runaway texts and what `\show` and `\showthe` show.
//!
//! *The TeXbook*, chapters 6, 8 and 20; *TeX: The Program*, parts 5 (printing), 6 (reporting errors), 22 (`runaway`)
//! and 49 (`issue_message`, `show_whatever`). No call takes memory of its own. Each one says how much of its text the sink took, and
//! keeps whether the transcript's column isn't 0.
#![tactic(auto)]

mod ends;
mod fixed;
mod message;
mod report;
mod said;
mod show;
mod writing;

pub use ends::{end_lines, hundred_line, no_end_lines, no_file_lines, write_end_in_conditional};
pub use message::{empty_runaway, write_message, write_runaway, write_token_line};
pub use report::{write_error_message, write_missing_file, write_report};
pub use show::{write_shown_meaning, write_shown_value};
pub use writing::put;
