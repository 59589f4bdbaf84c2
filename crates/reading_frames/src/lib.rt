//! The engine's open readings, whatever their kind, as frames of one stack.
//!
//! A reading of the machine is the list of all that it was fed with; a frame stands behind such a list, and answers what the
//! machine's definition asks for, but that of a call of a macro, which only has its place here. The lists that readings build and keep stay with
//! whoever feeds the frames, the last one on top.
#![tactic(auto)]

mod ask;
mod command;
mod file_name;
mod frame;
mod laws;
mod readings;
mod skip;
mod spelling;
mod text;

pub use ask::{Ask, Found, Grown, Opening};
pub use command::{CommandScan, ListedAsk};
pub use file_name::{FileAsk, FilePlace, FileScan};
pub use frame::Frame;
pub use laws::{
    groups_have_braces, lists_are_held, readings_are_fed, readings_begin, readings_end,
    rules_are_light, tokens_enter, weights_are_small,
};
pub use readings::Readings;
pub use skip::{SkipAsk, SkipPlace, SkipScan};
pub use spelling::{SpellAsk, SpellPlace, SpellScan};
pub use text::{BuildPlace, BuildScan, ListAsk};
