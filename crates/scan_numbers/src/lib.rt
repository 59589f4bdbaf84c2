//! The scanner of an integer: it is fed token by token, keeps the value so far, and answers what the definition `integer` asks for
//! behind all that it was fed with. And the scanner of the integer before a fraction, which tells of a point behind its digits.
#![tactic(auto)]

mod digits;
mod factor;
mod laws;
mod number;

pub use digits::Radix;
pub use factor::FactorScan;
pub use laws::{constants_are_read, digits_are_read, texts_are_read_back};
pub use number::{NumberScan, Place};
