//! Conditionals: the skipped text, fed token by token; what a `\fi`, an `\else` and an `\or` do; where a conditional goes on by the value of its test; and the
//! comparison of `\ifx`.
#![tactic(auto)]

mod choice;
mod laws;
mod limits;
mod open;
mod same;
mod skip;

pub use choice::{Aim, Choice, End, Passing, Step, Value, aim_of};
pub use laws::{
    conditionals_are_passed, meanings_are_compared, texts_are_counted, texts_end_once,
    worked_conditionals,
};
pub use limits::{Limit, Met, on_fi_or_else};
pub use open::{Conditional, Conditionals, constant_test};
pub use same::same_meaning;
pub use skip::{Ender, Part, Skip, ender_number, part_of};
