//! The scanner of glue: it is fed token by token and with what was read within, the dimensions, keywords and numbers of registers, and answers what the
//! definition `glue` asks for behind all that it was fed with.
#![tactic(auto)]

mod glue;
mod laws;

pub use glue::{GluePlace, GlueScan};
pub use laws::{glue_is_read, glue_is_summed};
