//! What each reading of the plain machine asks for after all that it was fed with: `specs/Readings.antt`. Commands are rows; an
//! integer, a factor, a dimension, glue, a keyword, a balanced text, the list of a macro, the arguments of a call, skipped text, `\csname` and `\input` have their own definitions.
#![tactic(auto)]

mod asks;
mod laws;
mod measures;

pub use asks::{DimenAsk, DimenInner, FactorAsk, GlueAsk, GlueInner, KeywordAsk, NumberAsk};
pub use laws::{
    names_are_held, notes_fall, readings_begin_lower, readings_start, skipped_texts,
    tokens_are_given_back, tokens_are_lent, tokens_enter, values_are_theirs, weights_fall,
    worked_readings,
};
pub use measures::{Measure, Quantity};
