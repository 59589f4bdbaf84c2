//! The scanner of an optional keyword: it is fed token by token, keeps the tokens read, and answers what the definition `keyword` asks for
//! behind all that it was fed with. Where the keyword isn't there, it puts them back. And the scanner of a dimension, which reads no keyword itself.
#![tactic(auto)]

mod decimals;
mod dimen;
mod keyword;
mod laws;
mod units;

pub use decimals::Digits;
pub use dimen::{DimenPlace, DimenScan, Sought};
pub use keyword::{KeywordPlace, KeywordScan};
pub use laws::{dimensions_are_read, printed_dimensions_are_read_back};
