//! The exact texts of numbers: whole numbers, scaled numbers, hexadecimal and roman numerals.
//!
//! A text has room for 80 bytes and allocates nothing. The forms are those that TeX prints: *The TeXbook*,
//! chapters 10 and 20; *TeX: The Program*, parts 5 (printing) and 7 (scaled dimensions).
#![tactic(auto)]

mod laws;
mod roman;
mod text;

pub use laws::{
    count_length, five_digits_suffice, hexadecimal_length, printed_dimension_reads_back,
    roman_spells_number, scaled_length, whole_number_length,
};
pub use roman::Roman;
pub use text::Text;
