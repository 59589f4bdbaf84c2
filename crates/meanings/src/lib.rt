//! Meanings as they are kept: a macro has a holder of its list, which names and saved values share by counts of the holders.
//!
//! *The TeXbook*, chapter 20; *TeX: The Program*, part 17 (the table of equivalents, `eqtb`). A name is a control
//! sequence or an active character. A macro is one token list: its parameter text, an end mark and its body.
#![tactic(auto)]

mod kept;
pub mod laws;
mod locations;

pub use kept::{
    Kept, known, list_of, marked, release, release_list, seen, share, share_list, without_list,
};
pub use locations::{FIXED, fixed, location};
