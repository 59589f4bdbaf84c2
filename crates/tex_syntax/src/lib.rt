//! The words that the plain machine and the engine share: how a token is read, what is reported, how a run ends. Each is
//! declared here once; the definitions cite these types, and the engine's values are of them.
#![tactic(auto)]

mod words;

pub use words::{Manner, Outcome, Report, Scanned, UnitTaken, Want};
