//! Tests of crates that stand below the machine, a module for each crate: that the calls which the program doesn't make succeed with
//! ample memory, what the contracts leave open, and values that stand in *The TeXbook*.
//!
//! A crate with tests is proved twice, so that these stand here. This crate has nothing else.
#![tactic(auto)]

#[cfg(test)]
mod char_text_tests;
#[cfg(test)]
mod command_words_tests;
#[cfg(test)]
mod conditionals_tests;
#[cfg(test)]
mod cs_hash_tests;
#[cfg(test)]
mod eqtb_tests;
#[cfg(test)]
mod input_stack_tests;
#[cfg(test)]
mod input_state_tests;
#[cfg(test)]
mod line_reader_tests;
#[cfg(test)]
mod list_builder_tests;
#[cfg(test)]
mod mem_words_tests;
#[cfg(test)]
mod prim_table_tests;
#[cfg(test)]
mod rows_tests;
#[cfg(test)]
mod scaled_arith_tests;
#[cfg(test)]
mod scan_dimens_tests;
#[cfg(test)]
mod scan_glue_tests;
#[cfg(test)]
mod scan_numbers_tests;
#[cfg(test)]
mod signals;
#[cfg(test)]
mod tables;
#[cfg(test)]
mod tex_defs_tests;
#[cfg(test)]
mod token_lists_tests;
#[cfg(test)]
mod token_show_tests;
#[cfg(test)]
mod transcript_tests;
#[cfg(test)]
mod world_io_tests;
