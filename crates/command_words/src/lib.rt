//! The words of a command line, and the command that they spell.
//!
//! The command line is described to `clap`, whose specification says of all words whether they fit it, and
//! what they match. This crate reads the file's name and the numbers off the matches.
#![tactic(auto)]

ghost use Rattle.std.specs.Prelude.{◌≡◌, ◌∷◌, [], IfErr, IfOk, false, map, true};
ghost use Rattle.std.specs.String.{string_bytes};
ghost use Rattle.clap.specs.Words.{app_of, fault_of, found_of, rows_of, rule_of, shape_of, subcommand_of, subcommand_rows_of};
ghost use Rattle.clap.specs.declared.builder.command.Command.TheViews.{out-Command as fields_of};
ghost use Rattle.command_words.specs.Words as spec;
ghost use Rattle.command_words.specs.Taken.{IsTaken};
ghost use Rattle.tex_defs.specs.Sizes.{is_in_range};
ghost use Rattle.command_words.specs.declared.Unread.{Unread};

use clap::builder::ValueParser;
use clap::error::ErrorKind;
use clap::{Arg, ArgAction, ArgMatches};
use std::alloc::{AllocError, Global};
use tex_defs::Table;
use thiserror::Error;

/// What `init FILE` asks for: the job of a file, from INITEX's first state.
#[derive(Drop)]
pub struct Job {
    /// The file's name, with `.tex` where no `.` stood behind its area.
    pub file: Vec<u8>,
    /// The greatest number of steps.
    pub steps: u64,
    /// The main memory size, in words.
    pub main_memory_size: u32,
    /// Whether token lines are left out.
    pub quiet: bool,
}

/// Why words were not read.
#[derive(Clone, Copy, Debug, PartialEq, Eq, Error)]
pub enum Unread {
    #[error("the words are no command")]
    Usage,
    #[error("out of memory")]
    NoMemory,
}

impl From<AllocError> for Unread {
    ghost from_gives = { λ _ e. e ≡ Unread.NoMemory };

    fn from(_error: AllocError) -> Unread {
        Unread::NoMemory
    }
}

/// The command that the words spell; the first word is the program's name, whatever it is.
///
/// The one command today is `init FILE`. Its options are `--steps N`, the greatest number of steps (0 to
/// 10^15, 10000000 where it isn't given), `--mem N`, the main memory size in words (100 to 16777216, 30000
/// where it isn't given), and `--quiet`. They stand before or behind the file.
///
/// # Errors
/// `Usage` only where the words are no command, `NoMemory` where memory was wanted.
pub fn read_words(alloc: Global, words: &[String]) -> Result<Job, Unread>
    ensures command { IfOk result (λ c. spec.command_of (map string_bytes words.now) ≡ spec.spelt c) }
    ensures usage { IfErr result (λ e. e ≡ Unread.Usage → spec.command_of (map string_bytes words.now) ≡ spec.NoCommand) }
    ensures size { IfOk result (λ job. is_in_range Table.MainMemorySize job.main_memory_size ≡ true) }
{
    let matches = parse(alloc, words)?;
    match matches.subcommand() {
        Some((_, init)) => read_init(alloc, init),
        None => Err(Unread::Usage),
    }
}

/// What `clap` matches in the words.
fn parse<'a>(alloc: Global, words: &'a [String]) -> Result<ArgMatches<'a>, Unread>
    ensures taken { IfOk result (λ _. fault_of spec.command_line (map string_bytes words.entry.now) ≡ []) }
    ensures rows { IfOk result (λ m. subcommand_rows_of m ≡ subcommand_of spec.command_line (map string_bytes words.entry.now)) }
    ensures usage { IfErr result (λ e. e ≡ Unread.Usage → fault_of spec.command_line (map string_bytes words.entry.now) ≡ [] → ⊥) }
{
    let command = command_line(alloc)?;
    match command.try_get_matches_from(words) {
        Ok(matches) => Ok(matches),
        Err(error) => match error.kind() {
            ErrorKind::OutOfMemory => Err(Unread::NoMemory),
            _ => Err(Unread::Usage),
        },
    }
}

/// The command `init` with what was matched behind it: each value is there and is in its range.
fn read_init(alloc: Global, init: &ArgMatches) -> Result<Job, Unread>
    requires { IsTaken (rows_of (found_of init.now)) }
    ensures command { IfOk result (λ c. spec.command_in (rows_of (found_of init.now)) ≡ spec.spelt c) }
    ensures memory { IfErr result (λ e. e ≡ Unread.NoMemory) }
    ensures size { IfOk result (λ job. is_in_range Table.MainMemorySize job.main_memory_size ≡ true) }
{
    let file = init.get_str("file").unwrap_or("");
    let steps = init.get_one::<u64>("steps").unwrap_or(0);
    let main_memory_size = init.get_one::<u64>("mem").unwrap_or(0) as u32;
    let quiet = init.get_flag("quiet");
    let file = file_name(alloc, file.as_bytes())?;
    Ok(Job {
        file,
        steps,
        main_memory_size,
        quiet,
    })
}

/// What stands behind the area of a file's name, which ends at the last `/`.
#[tactic(auto, using(crate::proofs::Areas::area_on, crate::proofs::Areas::area_whole, std::proofs::lemmas::List::drop_more))]
fn behind_area(name: &[u8]) -> &[u8]
    ensures { result.now ≡ spec.behind_area name.now }
{
    let mut behind = name;
    for (i, c) in name.iter().enumerate() {
        if *c == b'/' {
            behind = &name[i + 1..];
        }
    }
    behind
}

/// The job's name: what stands behind the area of its file's name, up to the first `.`. It may be empty.
///
/// The area, the name and the extension of a file's name: *TeX: The Program*, part 29.
#[tactic(auto, using(crate::proofs::Areas::dot_here, crate::proofs::Areas::dot_on))]
pub fn job_name(file: &[u8]) -> &[u8]
    ensures { result.now ≡ spec.job_name file.now }
{
    let name = behind_area(file);
    for (i, c) in name.iter().enumerate() {
        if *c == b'.' {
            return &name[..i];
        }
    }
    name
}

/// Whether a `.` stands behind the area of a name.
#[tactic(auto, using(crate::proofs::Areas::has_any))]
pub fn has_extension(name: &[u8]) -> bool
    ensures { result ≡ spec.has 46 (spec.behind_area name.now) }
{
    behind_area(name).contains(&b'.')
}

/// The name of a file, with `.tex` where no `.` stands behind its area.
fn file_name(alloc: Global, name: &[u8]) -> Result<Vec<u8>, AllocError>
    ensures { IfOk result (λ r. r.items ≡ spec.file_name name.now) }
{
    let mut whole = Vec::from_slice(alloc, name)?;
    if !has_extension(name) {
        whole.extend_from_slice(b".tex")?;
    }
    Ok(whole)
}

/// An option with a number in its range.
fn number_option<'a>(
    alloc: Global,
    name: &'a str,
    least: u64,
    most: u64,
    default: &'a str,
) -> Arg<'a>
    ensures rule { rule_of result ≡ spec.number_option name.entry.now least most default.entry.now }
    ensures local { result.global ≡ false }
{
    Arg::new(alloc, name)
        .long(name)
        .value_parser(ValueParser::unsigned(least, most))
        .default_value(default)
}

/// The command `init`: a file, and the options in any order.
fn init_command<'a>(alloc: Global) -> Result<clap::Command<'a>, AllocError>
    ensures shape { IfOk result (λ c. shape_of c ≡ spec.init) }
    ensures local { IfOk result (λ c. (fields_of c).has_globals ≡ false) }
{
    clap::Command::new(alloc, "init")
        .arg(Arg::new(alloc, "file").required(true))?
        .arg(number_option(alloc, "steps", 0, 1_000_000_000_000_000, "10000000"))?
        .arg(number_option(alloc, "mem", 100, 16_777_216, "30000"))?
        .arg(
            Arg::new(alloc, "quiet")
                .long("quiet")
                .action(ArgAction::SetTrue),
        )
}

/// The command line of the program.
fn command_line<'a>(alloc: Global) -> Result<clap::Command<'a>, AllocError>
    ensures { IfOk result (λ c. app_of c ≡ spec.command_line) }
{
    let init = init_command(alloc)?;
    clap::Command::new(alloc, "texmac")
        .disable_help_flag(true)
        .disable_help_subcommand(true)
        .subcommand_required(true)
        .subcommand(init)
}
