//! The plain machine's tokens: what a reader has to believe of characters, lines, names, lists and printed text.
#![tactic(auto)]

mod expandable;
mod laws;
mod line_state;
mod par_mode;

pub use expandable::is_expandable;
pub use laws::{
    double_hats, heads_are_read, lexing_consumes, lines_are_the_file, lines_come_in_turn,
    lines_give_by_head, names_are_longest_runs, names_are_numbered, names_are_read,
};
pub use line_state::LineState;
pub use par_mode::ParMode;
