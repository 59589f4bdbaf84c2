// Files that are opened by others.
use crate::macro_tests::repeated;
use crate::tests::INIT;
use std::alloc::{AllocError, Global};
use tex_program::top;
use world_io::{MemFiles, MemSink};

/// A file's name, and its bytes.
type File<'a> = (&'a [u8], &'a [u8]);

/// Text of job.tex behind a line with the usual categories, two other files, what is written, and the status.
type Row<'a> = (&'a [u8], [File<'a>; 2], &'a [u8], u8);

/// No file: a name that nobody asks for.
const NONE: File = (b"none", b"");

/// The line that gives `{`, `}`, `#` and `^` their usual categories.
const USUAL: &[u8] = b"\\catcode`\\{=1 \\catcode`\\}=2 \\catcode`\\#=6 \\catcode`\\^=7\n";

/// Holds this file and these, and lets the call of this number fail; the one of 0 is none.
fn hold(
    files: &mut MemFiles,
    first: File,
    others: &[File],
    failing: u64,
) -> Result<(), AllocError> {
    files.add(first.0, first.1)?;
    for file in others {
        files.add(file.0, file.1)?;
    }
    files.fail_at(failing)
}

/// Whether the program writes and answers so by these words, over these files and this sink.
fn does_over(
    alloc: Global,
    words: &[&str],
    expected: (&[u8], u8),
    files: &mut MemFiles,
    out: &mut MemSink,
) -> Result<bool, AllocError> {
    let mut all = Vec::new(alloc);
    for word in words {
        all.push(String::from_str(alloc, word)?)?;
    }
    let status = top(alloc, all.as_slice(), files, out);
    Ok(status == expected.1 && out.bytes() == expected.0)
}

/// Whether it does so where these files are held beside the first, and this call on the files fails. Where memory is wanted it doesn't.
fn does_beside(
    alloc: Global,
    first: File,
    others: &[File],
    words: &[&str],
    failing: u64,
    expected: (&[u8], u8),
) -> bool {
    let mut files = MemFiles::new(alloc);
    let mut out = MemSink::new(alloc);
    if hold(&mut files, first, others, failing).is_err() {
        return false;
    }
    let done = does_over(alloc, words, expected, &mut files, &mut out);
    matches!(done, Ok(true))
}

/// The same of files that are held.
fn does(alloc: Global, held: &[File], words: &[&str], failing: u64, expected: (&[u8], u8)) -> bool {
    does_beside(alloc, NONE, held, words, failing, expected)
}

/// Whether the run of job.tex by these words does what the row says, where this call on the files fails.
fn does_row(alloc: Global, row: &Row, words: &[&str], failing: u64) -> bool {
    let Ok(text) = repeated(alloc, USUAL, 1, row.0) else {
        return false;
    };
    let job = (b"job.tex".as_slice(), text.as_slice());
    does_beside(alloc, job, &row.1, words, failing, (row.2, row.3))
}

/// Files beneath files: their lines, their ends and their names, and conditionals across them.
const FILES: [Row; 30] = [
    (
        b"\\input b x\\input b \\end\n",
        [(b"b.tex", b"y\\endinput z\nq\n"), NONE],
        b"{the letter y}\n{the letter z}\n{blank space  }\n{the letter x}\n{the letter y}\n{the letter z}\n{blank space  }\n",
        0,
    ),
    (
        b"\\input zz \\end\n",
        [NONE, NONE],
        b"! I can't find file `zz.tex'.\nl.2\n! Emergency stop.\n*** (job aborted, file error in nonstop mode)\n",
        2,
    ),
    (
        b"\\input b y\\end\n",
        [(b"b.tex", b"x"), NONE],
        b"{the letter x}\n{blank space  }\n{the letter y}\n",
        0,
    ),
    (
        b"\\input b y\\end\n",
        [(b"b.tex", b""), NONE],
        b"{\\par}\n{the letter y}\n",
        0,
    ),
    (
        b"\\input b y\\end\n",
        [(b"b.tex", b"%\n\nx%\n"), NONE],
        b"{\\par}\n{the letter x}\n{the letter y}\n",
        0,
    ),
    (
        b"\\input b \\end\n",
        [(b"b.tex", b"\\def\\a#1.{}\\a x\n"), NONE],
        b"Runaway argument?\nx \n! File ended while scanning use of \\a.\nl.2\n",
        1,
    ),
    (
        b"\\input b \\end\n",
        [(b"b.tex", b"\\message{x\n"), NONE],
        b"Runaway text?\nx \n! File ended while scanning text of \\message.\nl.2\nx \n",
        1,
    ),
    (
        b"\\input b z}\\message{\\meaning\\a}\\end\n",
        [(b"b.tex", b"\n\n\\def\\a{x%\n"), NONE],
        b"{\\par}\n{\\par}\nRunaway definition?\n->x\n! File ended while scanning definition of \\a.\nl.2\n{the letter z}\n! Too many }'s.\nl.2\nmacro:->x\n",
        1,
    ),
    (
        b"\\edef\\a{\\input b \\message{\\meaning\\a}\\end\n",
        [(b"b.tex", b"x}%\n"), NONE],
        b"macro:->x\n",
        0,
    ),
    (
        b"\\expandafter\\message\\input b \\end\n",
        [(b"b.tex", b"{hi}%\n"), NONE],
        b"hi\n",
        0,
    ),
    (
        b"\\input b\\input c \\end\n",
        [(b"b.tex", b"x%\n"), (b"c.tex", b"y%\n")],
        b"{the letter x}\n{the letter y}\n",
        0,
    ),
    (
        b"\\let\\q=b\\input\\q\\relax\\input \\q\\q\\q.\\q\\message{m}\\end\n",
        [(b"b.tex", b"x%\n"), (b"bbb.b", b"y%\n")],
        b"{the letter x}\n{the letter y}\nm\n",
        0,
    ),
    (
        b"\\input d.x/b \\input d.x/b.c y\\end\n",
        [(b"d.x/b.tex", b"x%\n"), (b"d.x/b.c", b"z%\n")],
        b"{the letter x}\n{the letter z}\n{the letter y}\n",
        0,
    ),
    (
        b"\\input b \\foo\\end\n",
        [
            (b"b.tex", b"\n\n\\foo\n\\input c \\foo\n"),
            (b"c.tex", b"%\n\\foo\n"),
        ],
        b"{\\par}\n{\\par}\n! Undefined control sequence.\nl.3\n! Undefined control sequence.\nl.2\n! Undefined control sequence.\nl.4\n! Undefined control sequence.\nl.2\n",
        1,
    ),
    (
        b"\\endinput\\endinput\\message{a}%\n\\message{b}\\end\n",
        [NONE, NONE],
        b"a\n! Emergency stop.\n*** (job aborted, no legal \\end found)\n",
        2,
    ),
    (
        b"\\input b%\n\\message{c}\\end\n",
        [
            (b"b.tex", b"\\input c \\endinput%\n\\message{b}%\n"),
            (b"c.tex", b"\\message{a}%\n"),
        ],
        b"a c\n",
        0,
    ),
    (
        b"{\\input b }\\message{\\a}\\end\n",
        [(b"b.tex", b"}\\def\\a{x}{%\n"), NONE],
        b"x\n",
        0,
    ),
    (
        b"\\input b \\endlinechar=13 z\n\\end\n",
        [(b"b.tex", b"\\endlinechar=-1 %\nx\ny\n"), NONE],
        b"{the letter x}\n{the letter y}\n{the letter z}\n{blank space  }\n",
        0,
    ),
    (
        b"\\message{\\jobname}\\input b \\end\n",
        [(b"b.tex", b"\\message{\\jobname}%\n"), NONE],
        b"job job\n",
        0,
    ),
    (
        b"\\def\\a{\\input b c\\b}\\def\\b{d}\\a e\\end\n",
        [(b"b.tex", b"\\def\\a{x}\\a%\n"), NONE],
        b"{the letter x}\n{the letter c}\n{the letter d}\n{the letter e}\n",
        0,
    ),
    (
        b"\\input b.tex\\end\n",
        [(b"b.tex", b"x%\n"), NONE],
        b"{the letter x}\n",
        0,
    ),
    (
        b"\\input \\end\n",
        [(b".tex", b"x%\n"), NONE],
        b"{the letter x}\n",
        0,
    ),
    (
        b"\\show\\input\\message{\\meaning\\endinput}\\end\n",
        [NONE, NONE],
        b"> \\input=\\input.\nl.2\n\\endinput\n",
        1,
    ),
    (
        b"\\newlinechar=122 \\input zz \\end\n",
        [NONE, NONE],
        b"! I can't find file `\n\n.tex'.\nl.2\n! Emergency stop.\n*** (job aborted, file error in nonstop mode)\n",
        2,
    ),
    (
        b"\\input b \\fi\\message{j}\\end\n",
        [(b"b.tex", b"\\iftrue\\message{a}%\n"), NONE],
        b"a j\n",
        0,
    ),
    (
        b"\\iffalse\\input b \\fi\\message{j}\\input b \\end\n",
        [(b"b.tex", b"\\message{a}\\fi%\n"), NONE],
        b"j a\n! Extra \\fi.\nl.1\n",
        1,
    ),
    (
        b"\\input b x\\fi\\message{j}\\end\n",
        [(b"b.tex", b"\\iffalse\\message{a}%\n"), NONE],
        b"! Incomplete \\iffalse; all text was ignored after line 1.\nl.2\n{the letter x}\n! Extra \\fi.\nl.2\nj\n",
        1,
    ),
    (
        b"\\message{\\ifnum1=1\\input b \\else n\\fi}\\end\n",
        [(b"b.tex", b"y\\endinput\\else z%\nq\n"), NONE],
        b"! Incomplete \\ifnum; all text was ignored after line 1.\nl.2\n! Extra \\else.\nl.2\n! Extra \\fi.\nl.2\nyn\n",
        1,
    ),
    (
        b"\\outer\\def\\o{}\\input b \\message{j}\\fi\\end\n",
        [(b"b.tex", b"%\n%\n\\iffalse\n\\o\\message{a}%\n"), NONE],
        b"! Incomplete \\iffalse; all text was ignored after line 3.\nl.4\na j\n! Extra \\fi.\nl.2\n",
        1,
    ),
    (
        b"\\input b \\iftrue\\end\n",
        [(b"b.tex", b"%\n%\n\\iftrue%\n"), NONE],
        b"(\\end occurred when \\iftrue on line 2 was incomplete)\n(\\end occurred when \\iftrue on line 3 was incomplete)\n",
        0,
    ),
];

#[test]
fn files_stand_beneath_files(rt: HostRuntime) {
    for (k, row) in FILES.iter().enumerate() {
        assert!(rt; does_row(rt.alloc(), row, INIT, 0), "row {k}");
    }
}

#[test]
fn steps_are_those_of_all_files(rt: HostRuntime) {
    let text = b"\\input b x\\input b \\end\n";
    let files = [
        (b"b.tex".as_slice(), b"y\\endinput z\nq\n".as_slice()),
        NONE,
    ];
    let enough = (text.as_slice(), files, b"".as_slice(), 0);
    assert!(rt;
        does_row(
            rt.alloc(),
            &enough,
            &["texmac", "init", "job", "--quiet", "--steps", "48"],
            0
        )
    );
    let few = (
        text.as_slice(),
        files,
        b"! Step limit reached [steps=47].\n".as_slice(),
        4,
    );
    assert!(rt;
        does_row(
            rt.alloc(),
            &few,
            &["texmac", "init", "job", "--quiet", "--steps", "47"],
            0
        )
    );
}

/// What is written where the buffer is full.
const FULL_BUFFER: &[u8] = b"! TeX capacity exceeded, sorry [buffer size=500].\n";

/// Whether the run does so whose job has a line of 200 bytes, and opens a file with one of so many, each before three spaces.
fn does_with_lines(alloc: Global, count: usize, expected: (&[u8], u8)) -> Result<bool, AllocError> {
    let outer = repeated(alloc, b"%", 191, b"   \n\\end\n")?;
    let outer = repeated(alloc, b"\\input b ", 1, outer.as_slice())?;
    let inner = repeated(alloc, b"%", count, b"   \n")?;
    let held = [
        (b"job.tex".as_slice(), outer.as_slice()),
        (b"b.tex".as_slice(), inner.as_slice()),
    ];
    Ok(does(alloc, &held, INIT, 0, expected))
}

#[test]
fn open_lines_share_the_buffer(rt: HostRuntime) {
    let alloc = rt.alloc();
    // each takes one byte more than it has; the spaces at its end are read with it, and go then
    assert!(rt; matches!(does_with_lines(alloc, 295, (b"", 0)), Ok(true)));
    assert!(rt; matches!(does_with_lines(alloc, 296, (FULL_BUFFER, 3)), Ok(true)));
}

/// A name of 390 characters `x` and these, by a line with thirty-nine `\a` between its two parts: whether the run does so.
fn does_with_name(
    alloc: Global,
    line: (&[u8], &[u8]),
    last: &[u8],
    expected: (&[u8], u8),
) -> Result<bool, AllocError> {
    let line_end = repeated(alloc, b"\\a", 39, line.1)?;
    let line_whole = repeated(alloc, line.0, 1, line_end.as_slice())?;
    let after = repeated(alloc, b"}%\n", 1, line_whole.as_slice())?;
    let named = repeated(alloc, last, 1, after.as_slice())?;
    let text = repeated(alloc, b"\\def\\a{xxxxxxxxxx}\\def\\b{", 1, named.as_slice())?;
    let extension = repeated(alloc, last, 1, b".tex")?;
    let file = repeated(alloc, b"xxxxxxxxxx", 39, extension.as_slice())?;
    let whole = repeated(alloc, USUAL, 1, text.as_slice())?;
    let held = [
        (b"job.tex".as_slice(), whole.as_slice()),
        (file.as_slice(), b"%\n".as_slice()),
    ];
    Ok(does(alloc, &held, INIT, 0, expected))
}

/// Lines that spell a name by `\a` and `\b`: of `\csname`, and of a file, which gets `.tex`. Each has room for one byte by `\b`.
const SPELLING: [(&[u8], &[u8]); 2] = [
    (b"\\csname", b"\\b\\endcsname\\end%%%%%%%\n"),
    (b"\\input", b"\\b\\relax\\end%%%%%%%%\n"),
];

#[test]
fn names_are_spelt_behind_the_open_lines(rt: HostRuntime) {
    let alloc = rt.alloc();
    for (k, line) in SPELLING.iter().enumerate() {
        let fits = does_with_name(alloc, *line, b"y", (b"", 0));
        assert!(rt; matches!(fits, Ok(true)), "row {k}");
        let full = does_with_name(alloc, *line, b"yy", (FULL_BUFFER, 3));
        assert!(rt; matches!(full, Ok(true)), "row {k}");
    }
}

/// Files that open one another.
const CHAIN: [File; 7] = [
    (b"job.tex", b"\\input a\\end\n"),
    (b"a.tex", b"\\input b\\end\n"),
    (b"b.tex", b"\\input c %\n"),
    (b"c.tex", b"\\input d %\n"),
    (b"d.tex", b"\\input e %\n"),
    (b"e.tex", b"\\input f %\n"),
    (b"f.tex", b"x%\n"),
];

/// What is written where as many files are open as may be.
const FULL_LEVELS: &[u8] = b"! TeX capacity exceeded, sorry [text input levels=6].\n";

/// What is written where the sixth file isn't held.
const NO_SIXTH: &[u8] =
    b"! I can't find file `f.tex'.\nl.1\n! Emergency stop.\n*** (job aborted, file error in nonstop mode)\n";

#[test]
fn five_files_stand_beneath_the_job(rt: HostRuntime) {
    let alloc = rt.alloc();
    let from_a = &["texmac", "init", "a"];
    assert!(rt; does(alloc, &CHAIN, from_a, 0, (b"{the letter x}\n", 0)));
    assert!(rt; does(alloc, &CHAIN[..6], from_a, 0, (NO_SIXTH, 2)));
    assert!(rt; does(alloc, &CHAIN, INIT, 0, (FULL_LEVELS, 3)));
    // nor is one looked for
    assert!(rt; does(alloc, &CHAIN[..6], INIT, 0, (FULL_LEVELS, 3)));
}

#[test]
fn a_file_that_opens_itself_fills_the_levels(rt: HostRuntime) {
    let words = &["texmac", "init", "r"];
    let held: [File; 1] = [(b"r.tex", b"\\input r")];
    assert!(rt; does(rt.alloc(), &held, words, 0, (FULL_LEVELS, 3)));
}

/// The calls on the files by which the job is opened and read, and so is a file whose bytes come in two pieces, and its end: each with what is written
/// where it fails, but for the job's.
const FAULTS: [(u64, &[u8]); 4] = [
    (3, b"a\n! Read fault.\n"),
    (4, b"a\n! Read fault.\n"),
    (5, b"a b\n! Read fault.\n"),
    (6, b"a b\n! Read fault.\n"),
];

/// Whether the run does so of a job that opens a file of 276 bytes, where this call on the files fails.
fn does_with_pieces(
    alloc: Global,
    failing: u64,
    expected: (&[u8], u8),
) -> Result<bool, AllocError> {
    let last = repeated(alloc, b"%", 250, b"\n\\message{c}%")?;
    let file = repeated(alloc, b"\\message{b}%\n", 1, last.as_slice())?;
    let job = repeated(alloc, USUAL, 1, b"\\message{a}\\input b \\end\n")?;
    let held = [
        (b"job.tex".as_slice(), job.as_slice()),
        (b"b.tex".as_slice(), file.as_slice()),
    ];
    Ok(does(alloc, &held, INIT, failing, expected))
}

#[test]
fn a_file_that_fails_ends_the_run_behind_what_was_written(rt: HostRuntime) {
    let alloc = rt.alloc();
    let whole = does_with_pieces(alloc, 0, (b"a b c\n", 0));
    assert!(rt; matches!(whole, Ok(true)));
    for (call, written) in &FAULTS {
        let failed = does_with_pieces(alloc, *call, (*written, 5));
        assert!(rt; matches!(failed, Ok(true)), "call {call}");
    }
}

/// What is written by the run that opens a file of 10^6 lines, within one step less than it has: 29 of the job's first line, 6 of its second, 1 of each
/// line of the file, and 1 of the name on the last.
const MILLION_LINES: &[u8] =
    b"! Undefined control sequence.\nl.1000000\n! Undefined control sequence.\nl.2\n! Step limit reached [steps=1000035].\n";

/// The words of that run.
const WITHIN_A_MILLION: &[&str] = &["texmac", "init", "job", "--steps", "1000035"];

/// Whether the run does so. On the file's last line stands a name that means nothing, and on the job's behind it; then the job has its `\end`.
fn does_with_many_lines(alloc: Global) -> Result<bool, AllocError> {
    let lines = repeated(alloc, b"%%\n", 999_999, b"\\foo%\n")?;
    let job = repeated(alloc, USUAL, 1, b"\\input b \\foo\\end\n")?;
    let held = [
        (b"job.tex".as_slice(), job.as_slice()),
        (b"b.tex".as_slice(), lines.as_slice()),
    ];
    Ok(does(alloc, &held, WITHIN_A_MILLION, 0, (MILLION_LINES, 4)))
}

#[test]
fn a_file_may_have_a_million_lines(rt: HostRuntime) {
    let done = does_with_many_lines(rt.alloc());
    // within a step less the second report wouldn't come, and within a step more the run would end
    assert!(rt; matches!(done, Ok(true)));
}
