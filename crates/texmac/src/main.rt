//! `texmac`: TeX's macro language, run over files.
//!
//! `texmac init FILE` runs a file from INITEX's first state in nonstop mode. What it writes and its exit status are
//! those of `tex_program::top` over the system's files and standard output.
#![tactic(auto)]

#[cfg(test)]
mod arithmetic_tests;
#[cfg(test)]
mod command_tests;
#[cfg(test)]
mod conditional_tests;
#[cfg(test)]
mod file_tests;
#[cfg(test)]
mod group_tests;
#[cfg(test)]
mod integer_tests;
#[cfg(test)]
mod list_tests;
#[cfg(test)]
mod macro_tests;
#[cfg(test)]
mod measure_tests;
#[cfg(test)]
mod report_tests;
#[cfg(test)]
mod size_tests;
#[cfg(test)]
mod step_tests;
#[cfg(test)]
mod tests;

use std::env;
use std::io::ErrorKind;
use std::process::ExitCode;
use tex_program::top;
use world_io::{RealFiles, RealSink};

/// The status where no memory is found for the words.
const NO_MEMORY: u8 = 7;

fn main(rt: HostRuntime) -> ExitCode {
    let alloc = rt.alloc();
    let words = match env::args(&rt) {
        Ok(args) => args.collect::<Vec<String>>(alloc),
        // words that aren't text are no command
        Err(error) if error.kind() == ErrorKind::InvalidData => Ok(Vec::new(alloc)),
        Err(_) => return ExitCode::from(NO_MEMORY),
    };
    let Ok(words) = words else {
        return ExitCode::from(NO_MEMORY);
    };
    let mut files = RealFiles::new(&rt);
    let mut out = RealSink::new(&rt);
    ExitCode::from(top(alloc, words.as_slice(), &mut files, &mut out))
}
