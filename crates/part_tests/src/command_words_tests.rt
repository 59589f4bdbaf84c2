use command_words::{Job, Unread, job_name, read_words};
use std::alloc::{AllocError, Global};

/// The words of one text, parted by `|`.
fn words_of(alloc: Global, text: &str) -> Result<Vec<String>, AllocError> {
    let mut words = Vec::new(alloc);
    if text.len() > 0 {
        for word in text.split('|') {
            words.push(String::from_str(alloc, word)?)?;
        }
    }
    Ok(words)
}

/// What the words of a text say.
fn read(alloc: Global, text: &str) -> Result<Job, Unread> {
    let words = words_of(alloc, text)?;
    read_words(alloc, words.as_slice())
}

// The words of a command, its file, its most steps, the size of main memory and whether it is quiet.
static JOBS: [(&str, &str, u64, u32, bool); 17] = [
    ("t|init|a", "a.tex", 10_000_000, 30000, false),
    ("|init|a", "a.tex", 10_000_000, 30000, false),
    ("t|init|a.b", "a.b", 10_000_000, 30000, false),
    ("t|init|a.b/c", "a.b/c.tex", 10_000_000, 30000, false),
    ("t|init|--steps|5|a", "a.tex", 5, 30000, false),
    ("t|init|a|--steps=5", "a.tex", 5, 30000, false),
    ("t|init|a|--steps|+5", "a.tex", 5, 30000, false),
    ("t|init|--steps|007|a|--quiet", "a.tex", 7, 30000, true),
    ("t|init|--quiet|a", "a.tex", 10_000_000, 30000, true),
    ("t|init|a|--steps|0", "a.tex", 0, 30000, false),
    (
        "t|init|a|--steps|1000000000000000",
        "a.tex",
        1_000_000_000_000_000,
        30000,
        false,
    ),
    ("t|init|a|--mem|100", "a.tex", 10_000_000, 100, false),
    (
        "t|init|--mem=16777216|a|--steps|8",
        "a.tex",
        8,
        16_777_216,
        false,
    ),
    (
        "t|init|--mem|+0500|--quiet|a",
        "a.tex",
        10_000_000,
        500,
        true,
    ),
    ("t|init|-", "-.tex", 10_000_000, 30000, false),
    ("t|init|--quiet|--|a", "a.tex", 10_000_000, 30000, true),
    ("t|init|init", "init.tex", 10_000_000, 30000, false),
];

// Whether a job is the one of this row.
fn is_job(job: &Job, row: &(&str, &str, u64, u32, bool)) -> bool {
    let (_, name, steps, size, quiet) = *row;
    let numbers = (job.steps, job.main_memory_size, job.quiet);
    job.file.as_slice() == name.as_bytes() && numbers == (steps, size, quiet)
}

// Whether the words of this row are its job.
fn is_read(alloc: Global, row: &(&str, &str, u64, u32, bool)) -> bool {
    match read(alloc, row.0) {
        Ok(job) => is_job(&job, row),
        Err(_) => false,
    }
}

#[test]
fn reads_commands(rt: HostRuntime) {
    for k in 0..17usize {
        assert!(rt; is_read(rt.alloc(), &JOBS[k]), "row {k}");
    }
}

// Files, and the names of their jobs.
const JOB_NAMES: [(&[u8], &[u8]); 9] = [
    (b"x.tex", b"x"),
    (b"a/b.c/d.e.f", b"d"),
    (b".tex", b""),
    (b"x", b"x"),
    (b"a.b/c", b"c"),
    (b"a/", b""),
    (b"", b""),
    (b"/x.y", b"x"),
    (b"a/..", b""),
];

// Whether these files have jobs of these names.
fn are_named(rows: &[(&[u8], &[u8])]) -> bool {
    for (file, name) in rows {
        if job_name(*file) != *name {
            return false;
        }
    }
    true
}

#[test]
fn names_jobs(rt: HostRuntime) {
    assert!(rt; are_named(&JOB_NAMES));
}

// Words that are no command.
static OTHERS: [&str; 37] = [
    "",
    "t",
    "t|init",
    "t|a",
    "t|run|a",
    "t|init|a|b",
    "t|init|a|--steps",
    "t|init|a|--steps|5|--steps|5",
    "t|init|a|--quiet|--quiet",
    "t|init|a|--quiet=x",
    "t|--quiet|init|a",
    "t|init|a|-q",
    "t|init|-x",
    "t|init|a|--steps|-5",
    "t|init|a|--steps=-5",
    "t|init|a|--steps|1000000000000001",
    "t|init|a|--steps|5x",
    "t|init|a|--steps=",
    "t|init|a|--steps|+",
    "t|init|a|--steps|99999999999999999999",
    "t|init|a|--mem|99",
    "t|init|a|--mem|16777217",
    "t|init|a|--mem|-100",
    "t|init|a|--mem=",
    "t|init|a|--mem|100|--mem|100",
    "t|init|a|--mem|4294967396",
    "t|init|a|--mem|18446744073709551716",
    "t|--mem|100|init|a",
    "t|init|a|--pool|5000",
    "t|init|a|--step|5",
    "t|--help",
    "t|-h",
    "t|help",
    "t|init|--help",
    "t|init|a|--help",
    "t|--version",
    "t|init|a|--version",
];

// Whether the words of this text are no command.
fn is_refused(alloc: Global, text: &str) -> bool {
    matches!(read(alloc, text), Err(Unread::Usage))
}

#[test]
fn refuses_other_words(rt: HostRuntime) {
    for k in 0..37usize {
        assert!(rt; is_refused(rt.alloc(), OTHERS[k]), "row {k}");
    }
}
