//! What TeX's commands read, as data: a command is a row of stages, as in the syntax of *The TeXbook*, chapter 24.
//!
//! The words are declared here once, for the definitions in specs/ and for the engine. `src/command.rt` has the rows,
//! `specs/Stages.antt` what each stage makes of a token and of a value, `specs/Run.antt` what a row asks for.
#![tactic(auto)]

mod arithmetic;
mod command;
mod internal;
mod laws;
mod stage;
mod words;

pub use arithmetic::{
    GREATEST_DIMENSION, Operation, computed, glue_in, glue_product, glue_quotient, glue_sum,
    integer_of, measured, number_in, value_computed,
};
pub use command::{
    Action, Call, Character, Effect, Head, Prefix, Row, SYNTAX, Shorthand, Test, find_row, row_of,
    value_stage,
};
pub use internal::{
    Bank, Internal, byte_of, internal_of, is_dimension, is_fetchable, is_glue, is_list, is_mu,
    list_of, value_of, variable_of,
};
pub use laws::{
    effects_suit, macros_have_bodies, notes_are_single, readings_begin_lower, readings_start,
    worked_rows,
};
pub use stage::{Complaint, Got, Met, Next, Note, Stage, Start};
pub use words::{Datum, DimenKind, Keyword, Phrase, Relation, Value};
