//! The table of equivalents: all that assignments change, by its locations, and the groups that take assignments back.
//!
//! Everything here is definition, but for the words by which code and definitions name locations and values. The laws' functions do
//! nothing; their contracts are the laws.
//!
//! *The TeXbook*, chapter 24; *TeX: The Program*, parts 17 (the table of equivalents) and 19 (saving and restoring equivalents).
#![tactic(auto)]

mod laws;
mod values;

pub use laws::{
    engine_is_machine, first_values, groups_take_back, names_mean, other_kinds_stay, stays_whole,
    worked,
};
pub use values::{CodeKind, Glue, Loc, Val};
