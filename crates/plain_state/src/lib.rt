//! The texts that the plain machine writes of itself, and the lists of macros and balanced texts, token by token: definitions, and what a
//! body is, which these cite.
#![tactic(auto)]

mod body;

pub use body::Body;
