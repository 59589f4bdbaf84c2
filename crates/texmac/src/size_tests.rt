// Runs within tables of given sizes.
ghost use Rattle.std.specs.Prelude.{◌≡◌, [], None, false};

use crate::macro_tests::repeated;
use engine_state::{Broken, Engine};
use line_reader::Readers;
use std::alloc::{AllocError, Global};
use stomach::{Early, Ended, run_steps};
use tex_defs::{Full, Sizes, Table};
use tex_syntax::Outcome;
use world_io::{Fault, Files, MemFiles, MemSink};

/// The least size of each table.
pub const LEAST: Sizes = Sizes {
    pool_size: 4000,
    number_of_strings: 200,
    hash_size: 1777,
    main_memory_size: 100,
    save_size: 2,
    input_stack_size: 4,
    parameter_stack_size: 9,
    text_input_levels: 1,
    buffer_size: 80,
    grouping_levels: 1,
    condition_stack_size: 1,
    expansion_depth: 8,
    delayed_writes: 1,
};

/// Runs the file of this name.
fn run(
    engine: &mut Engine,
    readers: &mut Readers,
    name: &[u8],
    files: &mut MemFiles,
    out: &mut MemSink,
) -> Result<Ended, Early>
    requires idle { engine.old.input.making ≡ None }
    requires running { engine.old.stopped ≡ false }
    requires none { readers.old.readers ≡ [] }
{
    engine.keep_name(name)?;
    if engine.input.has_next() || engine.input.file_room().is_some() || !readers.has_room() {
        return Err(Early::Unread(Fault::Failed));
    }
    if !readers.open(files, name)? {
        return Err(Early::Unread(Fault::Failed));
    }
    engine.input.open_file();
    run_steps(engine, readers, files, out, 10000000)
}

/// Whether the run came to where this table is full, or else to its end without a report.
fn came(engine: &Engine, ended: Result<Ended, Early>, full: Option<Full>) -> bool {
    match ended {
        Ok(Ended::Halted(Outcome::Finished)) => full.is_none() && engine.reports() == 0,
        Err(Early::Broken(Broken::Full(found))) => full == Some(found) && engine.stopped(),
        _ => false,
    }
}

/// A file's name, and its text.
type Job<'a> = (&'a [u8], &'a [u8]);

/// What a run that has come to its end or to a full table leaves.
#[derive(Clone, Copy)]
struct Left {
    /// The words of main memory that are used.
    words: u32,
    /// The names that are entered.
    names: u32,
}

/// As `left_with`, over these files and this sink.
fn left_over(
    alloc: Global,
    sizes: &Sizes,
    held: &[Job],
    expected: (&[u8], Option<Full>),
    files: &mut MemFiles,
    out: &mut MemSink,
) -> Result<Option<Left>, AllocError> {
    let Some(job) = held.first() else {
        return Ok(None);
    };
    if sizes.check().is_err() {
        return Ok(None);
    }
    for file in held {
        files.add(file.0, file.1)?;
    }
    let mut readers = Readers::new(alloc, sizes.text_input_levels)?;
    let mut engine = Engine::new(alloc, sizes, true)?;
    let ended = run(&mut engine, &mut readers, job.0, files, out);
    let came = came(&engine, ended, expected.1) && out.bytes() == expected.0;
    let left = Left {
        words: engine.words(),
        names: engine.names.count(),
    };
    engine.close();
    Ok(came.then_some(left))
}

/// What the run of the first of these files within these sizes, without token lines, leaves, if it has written so and came to where this table
/// is full, or else to its end without a report.
fn left_with(
    alloc: Global,
    sizes: &Sizes,
    held: &[Job],
    written: &[u8],
    full: Option<Full>,
) -> Option<Left> {
    let mut files = MemFiles::new(alloc);
    let mut out = MemSink::new(alloc);
    let left = left_over(alloc, sizes, held, (written, full), &mut files, &mut out);
    left.unwrap_or(None)
}

/// The words of main memory that are used then.
fn words_with(
    alloc: Global,
    sizes: &Sizes,
    held: &[Job],
    written: &[u8],
    full: Option<Full>,
) -> Option<u32> {
    Some(left_with(alloc, sizes, held, written, full)?.words)
}

/// The same of a job that is the only file.
pub fn words_at(
    alloc: Global,
    sizes: &Sizes,
    job: Job,
    written: &[u8],
    full: Option<Full>,
) -> Option<u32> {
    words_with(alloc, sizes, &[job], written, full)
}

/// How many names are entered where the run of a job that is the only file has ended, if it has written so.
pub fn names_at(alloc: Global, sizes: &Sizes, job: Job, written: &[u8]) -> Option<u32> {
    Some(left_with(alloc, sizes, &[job], written, None)?.names)
}

/// A message; a line of 79 bytes; a text of 99 tokens: each with what it writes.
const FITTING: [(&[u8], &[u8]); 3] = [
    (
        b"\\catcode`\\{=1 \\catcode`\\}=2\n\\message{hi}\\end\n",
        b"hi\n",
    ),
    (
        b"xxxxxxxxxxxxxxxxxxxxxxxxxxxxxxxxxxxxxxxxxxxxxxxxxxxxxxxxxxxxxxxxxxxxxxxxxxxxxxx\n\\end\n",
        b"",
    ),
    (
        b"\\catcode`\\{=1 \\catcode`\\}=2\n\\message{aaaaaaaaaaaaaaaaaaaaaaaaaaaaaaaaaaaaaaaaaaaaaaaaa\naaaaaaaaaaaaaaaaaaaaaaaaaaaaaaaaaaaaaaaaaaaaaaaaa}\\end\n",
        b"aaaaaaaaaaaaaaaaaaaaaaaaaaaaaaaaaaaaaaaaaaaaaaaaa aaaaaaaaaaaaaaaaaaaaaaaaaaaaaaaaaaaaaaaaaaaaaaaaa\n",
    ),
];

#[test]
fn the_least_sizes_hold_what_fits(rt: HostRuntime) {
    for row in &FITTING {
        assert!(rt; words_at(rt.alloc(), &LEAST, (b"job", row.0), row.1, None).is_some());
    }
}

/// A text of one token more; a name behind thirteen that fill 200 strings with the job's and those of the 186 primitives: each
/// with what it writes, and the table that is full.
const FULL: [(&[u8], &[u8], Full); 2] = [
    (
        b"\\catcode`\\{=1 \\catcode`\\}=2\n\\message{aaaaaaaaaaaaaaaaaaaaaaaaaaaaaaaaaaaaaaaaaaaaaaaaa\naaaaaaaaaaaaaaaaaaaaaaaaaaaaaaaaaaaaaaaaaaaaaaaaaa}\\end\n",
        b"",
        Full {
            table: Table::MainMemorySize,
            used: 100,
            size: 100,
        },
    ),
    (
        b"\\catcode`\\xa 5\n\\catcode`\\xb 5\n\\catcode`\\xc 5\n\\catcode`\\xd 5\n\\catcode`\\xe 5\n\\catcode`\\xf 5\n\\catcode`\\xg 5\n\\catcode`\\xh 5\n\\catcode`\\xi 5\n\\catcode`\\xj 5\n\\catcode`\\xk 5\n\\catcode`\\xl 5\n\\catcode`\\xm 5\n\\catcode`\\xn 5 \\end\n",
        b"! Improper alphabetic constant.\nl.1\n! Undefined control sequence.\nl.1\n\
          ! Improper alphabetic constant.\nl.2\n! Undefined control sequence.\nl.2\n\
          ! Improper alphabetic constant.\nl.3\n! Undefined control sequence.\nl.3\n\
          ! Improper alphabetic constant.\nl.4\n! Undefined control sequence.\nl.4\n\
          ! Improper alphabetic constant.\nl.5\n! Undefined control sequence.\nl.5\n\
          ! Improper alphabetic constant.\nl.6\n! Undefined control sequence.\nl.6\n\
          ! Improper alphabetic constant.\nl.7\n! Undefined control sequence.\nl.7\n\
          ! Improper alphabetic constant.\nl.8\n! Undefined control sequence.\nl.8\n\
          ! Improper alphabetic constant.\nl.9\n! Undefined control sequence.\nl.9\n\
          ! Improper alphabetic constant.\nl.10\n! Undefined control sequence.\nl.10\n\
          ! Improper alphabetic constant.\nl.11\n! Undefined control sequence.\nl.11\n\
          ! Improper alphabetic constant.\nl.12\n! Undefined control sequence.\nl.12\n\
          ! Improper alphabetic constant.\nl.13\n! Undefined control sequence.\nl.13\n",
        Full {
            table: Table::NumberOfStrings,
            used: 200,
            size: 200,
        },
    ),
];

/// A line of 80 bytes.
const LONG_LINE: &[u8] =
    b"xxxxxxxxxxxxxxxxxxxxxxxxxxxxxxxxxxxxxxxxxxxxxxxxxxxxxxxxxxxxxxxxxxxxxxxxxxxxxxxx\n\\end\n";

#[test]
fn one_more_is_refused(rt: HostRuntime) {
    let alloc = rt.alloc();
    for row in &FULL {
        assert!(rt; words_at(alloc, &LEAST, (b"job", row.0), row.1, Some(row.2)).is_some());
    }
    // no list is held where the line is refused
    let full = Full {
        table: Table::BufferSize,
        used: 0,
        size: 80,
    };
    assert!(rt; words_at(alloc, &LEAST, (b"job", LONG_LINE), b"", Some(full)) == Some(0));
}

/// Whether a job's name of so many bytes finds the pool so.
fn is_named(alloc: Global, count: usize, full: Option<Full>) -> bool {
    let Ok(name) = repeated(alloc, b"a", count, b"") else {
        return false;
    };
    words_at(alloc, &LEAST, (name.as_slice(), b"\\end\n"), b"", full).is_some()
}

#[test]
fn a_job_name_too_long_for_the_pool_is_refused(rt: HostRuntime) {
    // the names of the primitives have 1689 bytes
    let full = Full {
        table: Table::PoolSize,
        used: 1689,
        size: 4000,
    };
    assert!(rt; is_named(rt.alloc(), 2311, None));
    assert!(rt; is_named(rt.alloc(), 2312, Some(full)));
}

/// The words that are used where the run of this text, within these sizes, comes to where this table is full.
pub fn words_where_full(
    alloc: Global,
    sizes: &Sizes,
    text: &[u8],
    table: Table,
    size: u32,
) -> Option<u32> {
    let full = Full {
        table,
        used: size,
        size,
    };
    words_at(alloc, sizes, (b"job", text), b"", Some(full))
}

/// A list that doubles without end.
const DOUBLED: &[u8] =
    b"\\catcode`\\{=1 \\catcode`\\}=2 \\def\\b{xxxxxxxxxx}\\def\\a{\\edef\\b{\\b\\b}\\a}\\a";

#[test]
fn a_full_memory_is_full_of_what_is_held(rt: HostRuntime) {
    let alloc = rt.alloc();
    let words = words_where_full(
        alloc,
        &Sizes::DEFAULT,
        DOUBLED,
        Table::MainMemorySize,
        30000,
    );
    assert!(rt; words == Some(30000));
    let words = words_where_full(alloc, &LEAST, DOUBLED, Table::MainMemorySize, 100);
    assert!(rt; words == Some(100));
}

/// Nine arguments at most.
const NINE_ARGUMENTS: Sizes = Sizes {
    parameter_stack_size: 9,
    ..Sizes::DEFAULT
};

/// Calls without end, with the table that they fill and its size.
const CALLS: [(Sizes, &[u8], Table, u32); 3] = [
    (
        LEAST,
        b"\\catcode`\\{=1 \\catcode`\\}=2 \\def\\a{\\a x}\\a",
        Table::InputStackSize,
        4,
    ),
    (
        LEAST,
        b"\\catcode`\\{=1 \\catcode`\\}=2 \\def\\a{\\number\\a}\\a",
        Table::ExpansionDepth,
        8,
    ),
    (
        NINE_ARGUMENTS,
        b"\\catcode`\\{=1 \\catcode`\\}=2 \\catcode`\\#=6 \\def\\a#1{\\a{#1}x}\\a y",
        Table::ParameterStackSize,
        9,
    ),
];

#[test]
fn levels_and_arguments_are_refused_at_their_least_sizes(rt: HostRuntime) {
    for row in &CALLS {
        assert!(rt; words_where_full(rt.alloc(), &row.0, row.1, row.2, row.3).is_some());
    }
}

/// Six files that may be open.
const SIX_FILES: Sizes = Sizes {
    text_input_levels: 6,
    ..LEAST
};

/// A job and three files beneath it, each in a line of the one before it.
const FOUR: [Job; 4] = [
    (b"job", b"\\input a \\end\n"),
    (b"a.tex", b"\\input b %\n"),
    (b"b.tex", b"\\input c %\n"),
    (b"c.tex", b"%\n"),
];

/// The same with one file more; and two beneath the job, of which each leaves a token put back behind its name.
const MORE: [[Job; 5]; 2] = [
    [
        (b"job", b"\\input a \\end\n"),
        (b"a.tex", b"\\input b %\n"),
        (b"b.tex", b"\\input c %\n"),
        (b"c.tex", b"\\input d %\n"),
        (b"d.tex", b"%\n"),
    ],
    [
        (b"job", b"\\input a\\end\n"),
        (b"a.tex", b"\\input b\\relax\n"),
        (b"b.tex", b"%\n"),
        (b"c.tex", b"%\n"),
        (b"d.tex", b"%\n"),
    ],
];

#[test]
fn each_file_has_a_level(rt: HostRuntime) {
    let alloc = rt.alloc();
    assert!(rt; words_with(alloc, &SIX_FILES, &FOUR, b"", None) == Some(0));
    let full = Full {
        table: Table::InputStackSize,
        used: 4,
        size: 4,
    };
    for (k, held) in MORE.iter().enumerate() {
        assert!(rt;
            words_with(alloc, &SIX_FILES, held, b"", Some(full)).is_some(),
            "row {k}"
        );
    }
}

/// Groups within the least sizes: each with what it writes, and the words that are used in the end.
const GROUPS: [(&[u8], &[u8], u32); 10] = [
    (
        b"\\catcode`\\{=1 \\catcode`\\}=2\n{\\let\\a=x\\let\\a=y\\global\\let\\b=z}\\end\n",
        b"",
        0,
    ),
    (
        b"\\catcode`\\{=1 \\catcode`\\}=2\n{\\aftergroup\\relax}{\\let\\a=x}\\begingroup\\let\\a=x\\endgroup\\end\n",
        b"",
        0,
    ),
    (
        b"\\catcode`\\{=1 \\catcode`\\}=2\n\\let\\a=x\\let\\b=y\\let\\c=z%\n{\\globaldefs=1 \\let\\a=x\\let\\b=y\\let\\c=z}\\end\n",
        b"",
        0,
    ),
    (
        b"\\catcode`\\{=1 \\catcode`\\}=2\n\\def\\a{x}{\\let\\b=\\a\\end\n",
        IN_GROUP,
        3,
    ),
    (
        b"\\catcode`\\{=1 \\catcode`\\}=2\n\\def\\a{x}{\\let\\b=\\a}\\end\n",
        b"",
        3,
    ),
    (
        b"\\catcode`\\{=1 \\catcode`\\}=2\n\\def\\a{x}{\\def\\a{yy}\\end\n",
        IN_GROUP,
        7,
    ),
    (
        b"\\catcode`\\{=1 \\catcode`\\}=2\n\\def\\a{x}{\\def\\a{yy}}\\end\n",
        b"",
        3,
    ),
    (
        b"\\catcode`\\{=1 \\catcode`\\}=2\n\\def\\a{x}{\\global\\def\\a{yy}\\end\n",
        IN_GROUP,
        4,
    ),
    (
        b"\\catcode`\\{=1 \\catcode`\\}=2\n{\\def\\a{x}\\global\\let\\b=\\a}\\end\n",
        b"",
        3,
    ),
    (
        b"\\catcode`\\{=1 \\catcode`\\}=2\n{\\count1=1 \\count1=2 \\global\\count2=3 }\\end\n",
        b"",
        0,
    ),
];

/// What an `\end` in one group writes.
pub const IN_GROUP: &[u8] = b"(\\end occurred inside a group at level 1)\n";

#[test]
fn groups_within_the_least_sizes_hold_what_fits(rt: HostRuntime) {
    for (k, row) in GROUPS.iter().enumerate() {
        assert!(rt;
            words_at(rt.alloc(), &LEAST, (b"job", row.0), row.1, None) == Some(row.2),
            "row {k}"
        );
    }
}

/// The save stack of the least size is full.
const SAVED: Full = Full {
    table: Table::SaveSize,
    used: 2,
    size: 2,
};

/// The same with one more: each with the table that is full.
const TOO_MUCH: [(&[u8], Full); 10] = [
    (
        b"\\begingroup\\begingroup\\end\n",
        Full {
            table: Table::GroupingLevels,
            used: 1,
            size: 1,
        },
    ),
    (b"\\begingroup\\let\\a=x\\begingroup\\end\n", SAVED),
    (b"\\begingroup\\let\\a=x\\let\\b=y\\end\n", SAVED),
    (b"\\begingroup\\let\\a=x\\aftergroup\\relax\\end\n", SAVED),
    (
        b"\\begingroup\\aftergroup\\relax\\aftergroup\\relax\\end\n",
        SAVED,
    ),
    (
        b"\\begingroup\\aftergroup\\relax\\catcode`\\!=9 \\end\n",
        SAVED,
    ),
    (
        b"\\begingroup\\newlinechar=1 \\escapechar=92 \\end\n",
        SAVED,
    ),
    (
        b"\\begingroup\\csname aa\\endcsname\\csname ab\\endcsname\\end\n",
        SAVED,
    ),
    (b"\\begingroup\\aftergroup\\relax\\count1=5 \\end\n", SAVED),
    (b"\\begingroup\\count1=5 \\tolerance=5 \\end\n", SAVED),
];

#[test]
fn one_more_in_a_group_is_refused(rt: HostRuntime) {
    for (k, row) in TOO_MUCH.iter().enumerate() {
        assert!(rt;
            words_at(rt.alloc(), &LEAST, (b"job", row.0), b"", Some(row.1)).is_some(),
            "row {k}"
        );
    }
}

/// A macro that is defined in a group, globally and in the group again: the old and the global list are saved.
const SAVED_TWICE: &[u8] =
    b"\\catcode`\\{=1 \\catcode`\\}=2\n\\def\\a{x}{\\def\\a{y}\\global\\def\\a{z}\\def\\a{w}\\end\n";

#[test]
fn saved_lists_are_held(rt: HostRuntime) {
    let alloc = rt.alloc();
    let sizes = Sizes {
        save_size: 3,
        ..LEAST
    };
    assert!(rt; words_at(alloc, &sizes, (b"job", SAVED_TWICE), IN_GROUP, None) == Some(9));
    // the list for which there is no room is still that of the definition
    assert!(rt; words_where_full(alloc, &LEAST, SAVED_TWICE, Table::SaveSize, 2) == Some(9));
}

/// A register that is assigned in a group, globally and in the group again: both old values are saved.
const REGISTER_SAVED_TWICE: &[u8] = b"\\begingroup\\count1=2 \\global\\count1=3 \\count1=4 \\end\n";

#[test]
fn saved_numbers_have_entries(rt: HostRuntime) {
    let alloc = rt.alloc();
    let sizes = Sizes {
        save_size: 3,
        ..LEAST
    };
    let text = REGISTER_SAVED_TWICE;
    assert!(rt; words_at(alloc, &sizes, (b"job", text), IN_GROUP, None) == Some(0));
    assert!(rt; words_where_full(alloc, &LEAST, text, Table::SaveSize, 2) == Some(0));
}

/// Whether a register's number behind so many names of `\count` is read within so many readings, or else finds no room for one more.
fn is_nested(alloc: Global, count: usize, size: u32, fits: bool) -> bool {
    let sizes = Sizes {
        expansion_depth: size,
        ..LEAST
    };
    let Ok(text) = repeated(alloc, b"\\count", count, b"1=5 \\end\n") else {
        return false;
    };
    let full = Full {
        table: Table::ExpansionDepth,
        used: size,
        size,
    };
    let full = (!fits).then_some(full);
    words_at(alloc, &sizes, (b"job", text.as_slice()), b"", full).is_some()
}

#[test]
fn numbers_of_registers_are_readings(rt: HostRuntime) {
    let alloc = rt.alloc();
    assert!(rt; is_nested(alloc, 7, 8, true));
    assert!(rt; is_nested(alloc, 8, 8, false));
    assert!(rt; is_nested(alloc, 8, 9, true));
}

/// The words where a group ends behind which so many tokens come, if the run comes to where this table is full, or else to
/// its end.
fn words_behind(alloc: Global, sizes: &Sizes, count: usize, full: Option<Full>) -> Option<u32> {
    let Ok(text) = repeated(alloc, b"\\aftergroup\\relax\n", count, b"\\endgroup\\end\n") else {
        return None;
    };
    let Ok(text) = repeated(alloc, b"\\begingroup\n", 1, text.as_slice()) else {
        return None;
    };
    words_at(alloc, sizes, (b"job", text.as_slice()), b"", full)
}

#[test]
fn tokens_behind_a_group_have_levels_and_words(rt: HostRuntime) {
    let alloc = rt.alloc();
    let sizes = Sizes {
        save_size: 60,
        ..LEAST
    };
    let full = Full {
        table: Table::InputStackSize,
        used: 4,
        size: 4,
    };
    assert!(rt; words_behind(alloc, &sizes, 3, None) == Some(0));
    assert!(rt; words_behind(alloc, &sizes, 4, Some(full)).is_some());
    let sizes = Sizes {
        input_stack_size: 100,
        ..sizes
    };
    let full = Full {
        table: Table::MainMemorySize,
        used: 100,
        size: 100,
    };
    assert!(rt; words_behind(alloc, &sizes, 50, None) == Some(0));
    assert!(rt; words_behind(alloc, &sizes, 51, Some(full)) == Some(100));
}
