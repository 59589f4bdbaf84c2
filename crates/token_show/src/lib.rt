//! The texts of names, token lists and meanings, handed out byte by byte.
//!
//! *The TeXbook*, chapters 7, 8 and 20; *TeX: The Program*, parts 5 (printing), 17 and 18 (names) and 20 (token
//! lists). No call takes memory.
#![tactic(auto)]

mod characters;
mod part;
mod piece;
mod places;
mod printing;
mod shown;
mod token_text;
mod view;
mod walk;

pub use characters::Characters;
pub use places::{last_after, places_after};
pub use shown::{
    Shown, meaning, meaning_head, name_text, show_built, show_bytes, show_list, show_runaway,
    show_token,
};
pub use token_text::TokenText;
pub use view::{NamesView, View};
