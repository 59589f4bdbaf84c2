// The program over files and a sink in memory.
use crate::macro_tests::repeated;
use std::alloc::{AllocError, Global};
use std::process::Abort;
use tex_program::top;
use world_io::{MemFiles, MemSink};

/// What the program is to write to the transcript, and its status.
#[derive(Drop)]
struct Expected<'a> {
    text: &'a [u8],
    status: u8,
}

/// The one file that is held, and what fails.
#[derive(Drop)]
struct Setting<'a> {
    /// The file's name, and its bytes.
    file: (&'a [u8], &'a [u8]),
    /// The most bytes that a read gives; 0 sets no bound.
    most: usize,
    /// The calls of the files and of the sink that fail; the one of 0 is none.
    failing: (u64, u64),
}

impl Setting<'_> {
    /// A file of this name and text, and nothing fails.
    fn of<'a>(name: &'a [u8], text: &'a [u8]) -> Setting<'a> {
        Setting {
            file: (name, text),
            most: 0,
            failing: (0, 0),
        }
    }
}

/// The words that run job.tex.
pub const INIT: &[&str] = &["texmac", "init", "job"];

/// The words, each by itself.
fn words_of(alloc: Global, words: &[&str]) -> Result<Vec<String>, AllocError> {
    let mut all = Vec::new(alloc);
    for word in words {
        all.push(String::from_str(alloc, word)?)?;
    }
    Ok(all)
}

/// Sets up the files and the sink.
fn set_up(setting: &Setting, files: &mut MemFiles, out: &mut MemSink) -> Result<(), AllocError> {
    files.add(setting.file.0, setting.file.1)?;
    if setting.most > 0 {
        files.limit_reads(setting.most);
    }
    files.fail_at(setting.failing.0)?;
    out.fail_at(setting.failing.1)
}

/// Whether the program does so over these files and this sink, once they are set up.
fn does_over(
    alloc: Global,
    words: &[&str],
    setting: &Setting,
    expected: &Expected,
    files: &mut MemFiles,
    out: &mut MemSink,
) -> Result<bool, AllocError> {
    set_up(setting, files, out)?;
    let words = words_of(alloc, words)?;
    let status = top(alloc, words.as_slice(), files, out);
    Ok(status == expected.status && out.bytes() == expected.text)
}

/// Whether the program does so, by these words in this setting. Where memory is wanted it doesn't.
fn does(alloc: Global, words: &[&str], setting: &Setting, expected: &Expected) -> bool {
    let mut files = MemFiles::new(alloc);
    let mut out = MemSink::new(alloc);
    let done = does_over(alloc, words, setting, expected, &mut files, &mut out);
    matches!(done, Ok(true))
}

/// A file behind the line with the usual categories, what it writes, and its status.
pub type Row = (&'static [u8], &'static [u8], u8);

/// Each of the files does so; the row that doesn't is named.
pub fn rows_hold(rt: &impl Abort, alloc: Global, rows: &[Row]) {
    for (k, row) in rows.iter().enumerate() {
        assert!(rt; job(alloc, row.0, row.1, row.2), "row {k}");
    }
}

/// Whether `init job` does so, where job.tex has this text behind a line that gives `{`, `}`, `#` and `^` their usual
/// categories.
pub fn job(alloc: Global, text: &[u8], written: &[u8], status: u8) -> bool {
    job_with(alloc, INIT, text, written, status)
}

/// As `job`, for other words than `init job`.
pub fn job_with(alloc: Global, words: &[&str], text: &[u8], written: &[u8], status: u8) -> bool {
    file_with(alloc, b"job.tex", words, text, written, status)
}

/// As `job`, for another file.
pub fn named_job(alloc: Global, name: &str, text: &[u8], written: &[u8], status: u8) -> bool {
    let words = ["texmac", "init", name];
    file_with(alloc, name.as_bytes(), &words, text, written, status)
}

/// As `job_with`, for another file.
fn file_with(
    alloc: Global,
    name: &[u8],
    words: &[&str],
    text: &[u8],
    written: &[u8],
    status: u8,
) -> bool {
    let usual = b"\\catcode`\\{=1 \\catcode`\\}=2 \\catcode`\\#=6 \\catcode`\\^=7\n";
    let Ok(whole) = repeated(alloc, usual, 1, text) else {
        return false;
    };
    let setting = Setting::of(name, whole.as_slice());
    let expected = Expected {
        text: written,
        status,
    };
    does(alloc, words, &setting, &expected)
}

/// Whether `init job` does so, where job.tex has this text alone.
fn bare_job(alloc: Global, text: &[u8], written: &[u8], status: u8) -> bool {
    let setting = Setting::of(b"job.tex", text);
    let expected = Expected {
        text: written,
        status,
    };
    does(alloc, INIT, &setting, &expected)
}

#[test]
fn a_message_is_written(rt: HostRuntime) {
    assert!(rt; job(rt.alloc(), b"\\message{hi}\\end\n", b"hi\n", 0));
}

/// Whether `init job` does so over this text, where each read gives so many bytes at most, and these calls of the files and of
/// the sink fail: the one of 0 is none.
fn over(alloc: Global, text: &[u8], most: usize, failing: (u64, u64), expected: Expected) -> bool {
    let setting = Setting {
        file: (b"job.tex", text),
        most,
        failing,
    };
    does(alloc, INIT, &setting, &expected)
}

/// The text that writes `hi`.
const HI: &[u8] =
    b"\\catcode`\\{=1 \\catcode`\\}=2 \\catcode`\\#=6 \\catcode`\\^=7\n\\message{hi}\\end\n";

#[test]
fn a_failed_call_is_told(rt: HostRuntime) {
    let alloc = rt.alloc();
    let (text, status) = (b"! Read fault.\n".as_slice(), 5);
    assert!(rt; over(alloc, HI, 256, (2, 0), Expected { text, status }));
    let (text, status) = (b"! Write fault.\n".as_slice(), 6);
    assert!(rt; over(alloc, HI, 256, (0, 1), Expected { text, status }));
}

/// A name of so many letters.
fn letters(alloc: Global, count: usize) -> Result<String, AllocError> {
    let mut name = String::new(alloc);
    for _ in 0..count {
        name.push_str("a")?;
    }
    Ok(name)
}

/// Whether the program does so for a job whose name has so many letters, over files whose first call fails.
fn unopened(alloc: Global, count: usize, expected: Expected) -> bool {
    let Ok(name) = letters(alloc, count) else {
        return false;
    };
    let setting = Setting {
        file: (b"job.tex", HI),
        most: 0,
        failing: (1, 0),
    };
    does(
        alloc,
        &["texmac", "init", name.as_str()],
        &setting,
        &expected,
    )
}

#[test]
fn a_name_without_room_is_told_before_a_failed_opening(rt: HostRuntime) {
    let alloc = rt.alloc();
    let (text, status) = (b"! Read fault.\n".as_slice(), 5);
    assert!(rt; unopened(alloc, 30000, Expected { text, status }));
    // of the 32000 bytes the names of the primitives have 1689
    let (text, status) = (
        b"! TeX capacity exceeded, sorry [pool size=32000].\n".as_slice(),
        3,
    );
    assert!(rt; unopened(alloc, 31000, Expected { text, status }));
}

/// A line of 42 bytes that writes `hi`, and two more.
const THREE_LINES: &[u8] =
    b"\\catcode`\\{=1 \\catcode`\\}=2 \\message{hi}%\n%a second line here\n\\end\n";

#[test]
fn a_file_is_read_as_it_is_needed(rt: HostRuntime) {
    let alloc = rt.alloc();
    let (text, status) = (b"hi\n".as_slice(), 0);
    assert!(rt; over(alloc, THREE_LINES, 1, (0, 0), Expected { text, status }));
    assert!(rt; over(alloc, THREE_LINES, 8, (0, 0), Expected { text, status }));
    // the file is opened, its first line comes by six reads, and the next one fails
    let (text, status) = (b"hi\n! Read fault.\n".as_slice(), 5);
    assert!(rt; over(alloc, THREE_LINES, 8, (8, 0), Expected { text, status }));
}

/// Words that are no command.
const NO_COMMANDS: [&[&str]; 10] = [
    &["texmac"],
    &["texmac", "--help"],
    &["texmac", "init", "-a"],
    &["texmac", "init", "a", "b"],
    &["texmac", "init", "--steps", "x", "a"],
    &["texmac", "init", "--steps=-1", "a"],
    &["texmac", "init", "--steps=1000000000000001", "a"],
    &["texmac", "init", "--mem", "99", "a"],
    &["texmac", "init", "--mem=16777217", "a"],
    &["texmac", "run", "--fmt", "a", "b"],
];

/// Whether these words give the usage line.
fn usage(alloc: Global, words: &[&str]) -> bool {
    let setting = Setting::of(b"-a.tex", b"\\end\n");
    let text = b"usage: texmac init FILE, run --fmt NAME FILE, drill SEED SIZE\n".as_slice();
    does(alloc, words, &setting, &Expected { text, status: 9 })
}

#[test]
fn words_that_are_no_command_give_the_usage(rt: HostRuntime) {
    let alloc = rt.alloc();
    for words in &NO_COMMANDS {
        assert!(rt; usage(alloc, *words));
    }
}

/// Whether this word finds a file of this name.
fn finds(alloc: Global, word: &str, name: &[u8]) -> bool {
    let setting = Setting::of(name, b"\\end\n");
    let expected = Expected {
        text: b"",
        status: 0,
    };
    does(alloc, &["texmac", "init", word], &setting, &expected)
}

#[test]
fn a_file_has_its_extension_behind_the_area(rt: HostRuntime) {
    let alloc = rt.alloc();
    assert!(rt; finds(alloc, "a.b/job", b"a.b/job.tex"));
    assert!(rt; finds(alloc, "job.txt", b"job.txt"));
}

/// Whether `init job` ends so where another file alone is held.
fn misses(alloc: Global, text: &[u8], status: u8) -> bool {
    let setting = Setting::of(b"job", b"\\end\n");
    does(alloc, INIT, &setting, &Expected { text, status })
}

#[test]
fn a_missing_file_is_fatal(rt: HostRuntime) {
    let text =
        b"! I can't find file `job.tex'.\nl.0\n! Emergency stop.\n*** (job aborted, file error in nonstop mode)\n";
    assert!(rt; misses(rt.alloc(), text, 2));
}

/// A text that runs away.
const WITHOUT_END: [Row; 1] = [(
    b"\\message{abcdefghijklmnopqrstuvwxyzabcdefghijklmnopqrstuvwxyz0123456789xyz",
    b"Runaway text?\nabcdefghijklmnopqrstuvwxyzabcdefghijklmnopqrstuvwxyz0123456789\\ETC.\n! File ended while scanning text of \\message.\nl.0\nabcdefghijklmnopqrstuvwxyzabcdefghijklmnopqrstuvwxyz0123456789xyz \n! Emergency stop.\n*** (job aborted, no legal \\end found)\n",
    2,
)];

#[test]
fn a_run_without_end_is_fatal(rt: HostRuntime) {
    let written = b"{\\par}\n! Emergency stop.\n*** (job aborted, no legal \\end found)\n";
    assert!(rt; bare_job(rt.alloc(), b"", written, 2));
    rows_hold(&rt, rt.alloc(), &WITHOUT_END);
}

/// A message and a letter.
const LETTER: &[u8] = b"\\message{hi}x\\end\n";

/// Lines that end in a carriage return and a line feed.
const CARRIAGE_RETURNS: &[u8] =
    b"\\catcode`\\{=1 \\catcode`\\}=2 \\catcode`\\#=6 \\catcode`\\^=7\r\n\\message{x}\r\n\\end\r\n";

/// A character of each category that has a line; braces open and close groups.
const TYPESET: [Row; 1] = [(
    b"{}#^1\\catcode`$=3 \\catcode`&=4 \\catcode`_=8 $&_\\par\\end\n",
    b"{macro parameter character #}\n{superscript character ^}\n{the character 1}\n{math shift character $}\n{alignment tab character &}\n{subscript character _}\n{\\par}\n",
    0,
)];

#[test]
fn tokens_of_typesetting_have_lines(rt: HostRuntime) {
    let alloc = rt.alloc();
    assert!(rt; job(alloc, LETTER, b"hi\n{the letter x}\n", 0));
    assert!(rt;
        job_with(
            alloc,
            &["texmac", "init", "--quiet", "job"],
            LETTER,
            b"hi\n",
            0
        )
    );
    assert!(rt; bare_job(alloc, CARRIAGE_RETURNS, b"x\n{blank space  }\n", 0));
    rows_hold(&rt, alloc, &TYPESET);
}

/// Letters, a prefix that goes with none of them, and an undefined name.
const LINES_AND_REPORTS: &[u8] = b"ab\\long c\\foo\\end\n";

/// The write that fails, and all that is written then.
const CUT: [(u64, &[u8]); 5] = [
    (1, b"! Write fault.\n"),
    (2, b"{the letter a}\n! Write fault.\n"),
    (3, b"{the letter a}\n{the letter b}\n! Write fault.\n"),
    (
        4,
        b"{the letter a}\n{the letter b}\n! You can't use a prefix with `the letter c'.\nl.1\n! Write fault.\n",
    ),
    (
        5,
        b"{the letter a}\n{the letter b}\n! You can't use a prefix with `the letter c'.\nl.1\n{the letter c}\n! Write fault.\n",
    ),
];

#[test]
fn each_text_is_one_write(rt: HostRuntime) {
    let (alloc, status) = (rt.alloc(), 6);
    for row in &CUT {
        let text = row.1;
        assert!(rt;
            over(
                alloc,
                LINES_AND_REPORTS,
                256,
                (0, row.0),
                Expected { text, status }
            )
        );
    }
}

/// Texts that are reported.
const REPORTS: [Row; 4] = [
    (
        b"\\catcode256=1 \\end\n",
        b"! Bad character code (256).\nl.2\n",
        1,
    ),
    (
        b"\\catcode`\\x=16 \\end\n",
        b"! Invalid code (16), should be in the range 0..15.\nl.2\n",
        1,
    ),
    (
        b"\\message{a\x7fb}\\end\n",
        b"! Text line contains an invalid character.\nl.2\nab\n",
        1,
    ),
    (
        b"\\message{a}\\foo\\message x}\\end\n",
        b"a\n! Undefined control sequence.\nl.2\n! Missing { inserted.\nl.2\nx\n",
        1,
    ),
];

#[test]
fn reports_are_written(rt: HostRuntime) {
    let written = b"! Undefined control sequence.\nl.1\n";
    assert!(rt; bare_job(rt.alloc(), b"\\foo\\end\n", written, 1));
    rows_hold(&rt, rt.alloc(), &REPORTS);
}

/// Whether 99 reports end no run.
fn goes_on(alloc: Global) -> Result<bool, AllocError> {
    let text = repeated(alloc, b"\\foo", 99, b"\\end\n")?;
    let written = repeated(alloc, b"! Undefined control sequence.\nl.1\n", 99, b"")?;
    Ok(bare_job(alloc, text.as_slice(), written.as_slice(), 1))
}

#[test]
fn ninety_nine_reports_end_no_run(rt: HostRuntime) {
    assert!(rt; matches!(goes_on(rt.alloc()), Ok(true)));
}

/// Words with a bound, what a run that ends at step 36 writes under it, and its status.
const BOUNDS: [(&[&str], &[u8], u8); 3] = [
    (
        &["texmac", "init", "--steps", "34", "job"],
        b"! Step limit reached [steps=34].\n",
        4,
    ),
    (
        &["texmac", "init", "job", "--steps=35"],
        b"hi\n! Step limit reached [steps=35].\n",
        4,
    ),
    (&["texmac", "init", "--steps", "36", "job"], b"hi\n", 0),
];

#[test]
fn a_run_stops_at_its_bound(rt: HostRuntime) {
    for row in &BOUNDS {
        assert!(rt; job_with(rt.alloc(), row.0, b"\\message{hi}\\end\n", row.1, row.2));
    }
}

/// Messages, with a space between them.
const PARTED: [Row; 2] = [
    (b"\\message{a}%\n\\message{b}\\end\n", b"a b\n", 0),
    (b"\\message{a}%\r\n\\message{b}\\end", b"a b\n", 0),
];

#[test]
fn messages_are_parted_by_a_space(rt: HostRuntime) {
    rows_hold(&rt, rt.alloc(), &PARTED);
}

/// Texts with braces, and of several lines.
const BALANCED: [Row; 2] = [
    (b"\\message{a{b{c}}d}\\end\n", b"a{b{c}}d\n", 0),
    (
        b"\\message {one\ntwo  three   \n   four}\\end\n",
        b"one two three four\n",
        0,
    ),
];

#[test]
fn texts_are_balanced(rt: HostRuntime) {
    rows_hold(&rt, rt.alloc(), &BALANCED);
}

/// Characters by `^^`, inside names too.
const HATS: [Row; 2] = [
    (b"\\message{^^41^^4a}\\end\n", b"AJ\n", 0),
    (b"\\mess^^61ge{^^:^^^41}\\e^^6ed\n", b"z^^^41\n", 0),
];

#[test]
fn double_hats_stand_for_characters(rt: HostRuntime) {
    rows_hold(&rt, rt.alloc(), &HATS);
}

/// Characters as they are printed: `\newlinechar` is 0.
const PRINTED: [Row; 2] = [
    (
        b"\\message{a\x00b\tc\xffd##}\\end\n",
        b"ab^^Ic^^ffd####\n",
        0,
    ),
    (b"\\catcode0=12 \\message{a^^@b}\\end\n", b"a\nb\n", 0),
];

#[test]
fn characters_are_printed_as_tex_prints_them(rt: HostRuntime) {
    rows_hold(&rt, rt.alloc(), &PRINTED);
}

/// Category codes, read in each form of a number.
const CODES: [Row; 4] = [
    (
        b"\\catcode`\\%=12 \\message{a%b}\\catcode`\\%=14 %c\n\\end\n",
        b"a%b\n",
        0,
    ),
    (b"\\catcode'45=12 \\message{a%b}\\end\n", b"a%b\n", 0),
    (b"\\catcode\"25='14 \\message{a%b}\\end\n", b"a%b\n", 0),
    (b"\\catcode 37 = -+-\"C \\message{a%b}\\end\n", b"a%b\n", 0),
];

#[test]
fn category_codes_are_read_in_each_form(rt: HostRuntime) {
    rows_hold(&rt, rt.alloc(), &CODES);
}

/// `\relax` by itself and before a text.
const RELAXED: [Row; 3] = [
    (b"\\relax\\end\n", b"", 0),
    (b"\\message\\relax {hi}\\end\n", b"hi\n", 0),
    (b"\\message \\relax\\relax{hi}\\end\n", b"hi\n", 0),
];

#[test]
fn relax_does_nothing(rt: HostRuntime) {
    rows_hold(&rt, rt.alloc(), &RELAXED);
}

/// Prefixes, with what is reported of them.
const PREFIXES: [Row; 5] = [
    (
        b"\\global\\catcode`\\%=12 \\message{a%b}\\catcode`\\%=14 \\end\n",
        b"a%b\n",
        0,
    ),
    (
        b"\\global\\relax \\long\\catcode`\\%=12 \\message{%}\\catcode`\\%=14 \\end\n",
        b"! You can't use `\\long' or `\\outer' with `\\catcode'.\nl.2\n%\n",
        1,
    ),
    (
        b"\\global\\message{x}\\end\n",
        b"! You can't use a prefix with `\\message'.\nl.2\nx\n",
        1,
    ),
    (
        b"\\outer x\\end\n",
        b"! You can't use a prefix with `the letter x'.\nl.2\n{the letter x}\n",
        1,
    ),
    (
        b"\\long\\foo\\global\\end\n",
        b"! Undefined control sequence.\nl.2\n! You can't use a prefix with `\\end'.\nl.2\n",
        1,
    ),
];

#[test]
fn prefixes_stand_before_assignments(rt: HostRuntime) {
    rows_hold(&rt, rt.alloc(), &PREFIXES);
}

/// An active, an ignored, a comment and an escape character.
const CATEGORIES: [Row; 4] = [
    (
        b"\\catcode`\\~=13 ~\\end\n",
        b"! Undefined control sequence.\nl.2\n",
        1,
    ),
    (b"\\catcode`\\!=9 \\message{a!b}\\end\n", b"ab\n", 0),
    (b"\\catcode`\\!=14 \\message{a}!b\n\\end\n", b"a\n", 0),
    (b"\\catcode`\\|=0 |message{a}|end\n", b"a\n", 0),
];

#[test]
fn categories_are_followed(rt: HostRuntime) {
    rows_hold(&rt, rt.alloc(), &CATEGORIES);
}

/// Messages of 99, 100 and 200 letters.
const LETTERS: [Row; 3] = [
    (
        b"\\message{aaaaaaaaaaaaaaaaaaaaaaaaaaaaaaaaaaaaaaaaaaaaaaaaaaaaaaaaaaaaaaaaaaaaaaaaaaaaaaaaaaaaaaaaaaaaaaaaaaa}\\end\n",
        b"aaaaaaaaaaaaaaaaaaaaaaaaaaaaaaaaaaaaaaaaaaaaaaaaaaaaaaaaaaaaaaaaaaaaaaaaaaaaaaaaaaaaaaaaaaaaaaaaaaa\n",
        0,
    ),
    (
        b"\\message{aaaaaaaaaaaaaaaaaaaaaaaaaaaaaaaaaaaaaaaaaaaaaaaaaaaaaaaaaaaaaaaaaaaaaaaaaaaaaaaaaaaaaaaaaaaaaaaaaaaa}\\end\n",
        b"! TeX capacity exceeded, sorry [main memory size=100].\n",
        3,
    ),
    (
        b"\\message{aaaaaaaaaaaaaaaaaaaaaaaaaaaaaaaaaaaaaaaaaaaaaaaaaaaaaaaaaaaaaaaaaaaaaaaaaaaaaaaaaaaaaaaaaaaaaaaaaaa\
          aaaaaaaaaaaaaaaaaaaaaaaaaaaaaaaaaaaaaaaaaaaaaaaaaaaaaaaaaaaaaaaaaaaaaaaaaaaaaaaaaaaaaaaaaaaaaaaaaaaaa}\\end\n",
        b"! TeX capacity exceeded, sorry [main memory size=100].\n",
        3,
    ),
];

#[test]
fn a_full_main_memory_ends_the_run(rt: HostRuntime) {
    let words = ["texmac", "init", "--mem", "100", "job"];
    for row in &LETTERS {
        assert!(rt; job_with(rt.alloc(), &words, row.0, row.1, row.2));
    }
}

/// Whether a line of so many bytes does so.
fn line(alloc: Global, count: usize, written: &[u8], status: u8) -> bool {
    let words = ["texmac", "init", "--quiet", "job"];
    let Ok(text) = repeated(alloc, b"x", count, b"\n\\end\n") else {
        return false;
    };
    job_with(alloc, &words, text.as_slice(), written, status)
}

#[test]
fn a_line_of_the_buffer_size_fits(rt: HostRuntime) {
    assert!(rt; line(rt.alloc(), 499, b"", 0));
}

#[test]
fn a_line_too_long_ends_the_run(rt: HostRuntime) {
    let full = b"! TeX capacity exceeded, sorry [buffer size=500].\n";
    assert!(rt; line(rt.alloc(), 500, full, 3));
}
