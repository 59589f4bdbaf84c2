// Commands that are read by rows, and expansions.
use crate::step_tests::{Counted, steps_hold};
use crate::tests::{Row, named_job, rows_hold};

/// Expansions: `\expandafter`, `\noexpand`, `\string`, `\meaning` and `\romannumeral`.
const EXPANSIONS: [Row; 24] = [
    (
        b"\\edef\\b{\\noexpand\\a\\string\\a}\\message{\\meaning\\b}\\end\n",
        b"macro:->\\a \\a\n",
        0,
    ),
    (
        b"\\def\\a{\\def\\a{n}\\message{old}}\\a\\message{\\meaning\\a}\\end\n",
        b"old macro:->n\n",
        0,
    ),
    (
        b"\\message{\\romannumeral1987,\\romannumeral-3 ,\\number-007 }\\end\n",
        b"mcmlxxxvii,,-7\n",
        0,
    ),
    (
        b"\\def\\a#1{[#1]}\\def\\b{xy}\\message{\\expandafter\\a\\b}\\end\n",
        b"[x]y\n",
        0,
    ),
    (
        b"\\def\\a{xy}\\expandafter\\message\\expandafter{\\a}\\end\n",
        b"xy\n",
        0,
    ),
    (
        b"\\message{\\expandafter a\\expandafter b\\expandafter c\\number\\number7 8 }\\end\n",
        b"abc78\n",
        0,
    ),
    (b"\\expandafter\\relax\\relax\\end\n", b"", 0),
    (
        b"\\expandafter x\\zz\\end\n",
        b"! Undefined control sequence.\nl.2\n{the letter x}\n",
        1,
    ),
    (
        b"\\def\\a.{}\\expandafter x\\a y\\end\n",
        b"! Use of \\a doesn't match its definition.\nl.2\n{the letter x}\n",
        1,
    ),
    (
        b"\\expandafter",
        b"! Emergency stop.\n*** (job aborted, no legal \\end found)\n",
        2,
    ),
    (
        b"\\message{\\expandafter",
        b"Runaway text?\n! File ended while scanning text of \\message.\nl.0\n! Emergency stop.\n*** (job aborted, no legal \\end found)\n",
        2,
    ),
    (
        b"\\outer\\def\\o{y}\\edef\\a{\\expandafter x\\o}\\message{\\meaning\\a}\\end\n",
        b"Runaway definition?\n->\n! Forbidden control sequence found while scanning definition of \\a.\nl.2\n{the letter y}\n! Too many }'s.\nl.2\nmacro:->x \n",
        1,
    ),
    (b"\\message{\\noexpand\\zz}\\end\n", b"\\zz \n", 0),
    (b"\\noexpand\\zz\\noexpand x\\end\n", b"{the letter x}\n", 0),
    (
        b"\\def\\a{x}\\message{\\noexpand\\a\\a}\\end\n",
        b"\\a x\n",
        0,
    ),
    (
        b"\\catcode`\\~=13 \\def~{t}\\message{\\noexpand~~}\\end\n",
        b"~t\n",
        0,
    ),
    (
        b"\\outer\\def\\o{x}\\edef\\a{\\noexpand\\o}\\message{\\meaning\\a}\\end\n",
        b"macro:->\\o \n",
        0,
    ),
    (
        b"\\outer\\def\\o{x}\\edef\\a{[\\string\\o\\meaning\\o]}\\message{\\a}\\end\n",
        b"[\\o\\outer macro:->x]\n",
        0,
    ),
    (
        b"\\message{\\string a\\string{\\string\\zz\\string~\\string\\ \\string}}\\end\n",
        b"a{\\zz~\\ }\n",
        0,
    ),
    (
        b"\\def\\a#1{\\message{[\\string#1]}}\\a{ }\\end\n",
        b"[ ]\n",
        0,
    ),
    (b"\\string a\\end\n", b"{the character a}\n", 0),
    (
        b"\\message{\\string",
        b"! Emergency stop.\n*** (job aborted, no legal \\end found)\n",
        2,
    ),
    (
        b"\\message{\\meaning a,\\meaning 1,\\meaning{,\\meaning}}\\end\n",
        b"the letter a,the character 1,begin-group character {,end-group character }\n",
        0,
    ),
    (
        b"\\message{\\meaning\\zz,\\meaning\\relax,\\meaning\\end,\\meaning~}\\end\n",
        b"undefined,\\relax,\\end,the character ~\n",
        0,
    ),
];

#[test]
fn expansions_are_made(rt: HostRuntime) {
    rows_hold(&rt, rt.alloc(), &EXPANSIONS);
}

/// Names that `\csname` spells.
const SPELLINGS: [Row; 19] = [
    (
        b"\\expandafter\\let\\csname ab\\endcsname\\relax\\end\n",
        b"",
        0,
    ),
    (b"\\csname ab\\endcsname\\end\n", b"", 0),
    (
        b"\\csname ab\\endcsname\\message{\\expandafter\\meaning\\csname ab\\endcsname}\\end\n",
        b"\\relax\n",
        0,
    ),
    (
        b"\\csname a\\endcsname\\message{\\meaning\\a\\csname a\\endcsname}\\end\n",
        b"\\relax\\a \n",
        0,
    ),
    (
        b"\\message{\\expandafter\\string\\csname\\endcsname,\\csname\\endcsname}\\end\n",
        b"\\csname\\endcsname,\\csname\\endcsname \n",
        0,
    ),
    (
        b"\\expandafter\\def\\csname x\\number007\\endcsname{z}\\message{\\csname x7\\endcsname}\\end\n",
        b"z\n",
        0,
    ),
    (
        b"\\def\\b{a}\\def\\aa{y}\\csname\\b\\b\\endcsname\\end\n",
        b"{the letter y}\n",
        0,
    ),
    (
        b"\\message{\\expandafter\\string\\csname a b\\endcsname}\\end\n",
        b"\\a b\n",
        0,
    ),
    (
        b"\\message{\\csname{}#1\\endcsname}\\end\n",
        b"\\{}#1 \n",
        0,
    ),
    (
        b"\\let\\e=\\endcsname\\message{\\csname ab\\e}\\end\n",
        b"\\ab \n",
        0,
    ),
    (
        b"\\message{\\csname ab}\\end",
        b"! Missing \\endcsname inserted.\nl.2\nRunaway text?\n\\ab} \\end \n! File ended while scanning text of \\message.\nl.0\n\\ab} \\end \n! Emergency stop.\n*** (job aborted, no legal \\end found)\n",
        2,
    ),
    (
        b"\\message{\\csname ab\\relax\\endcsname}\\end\n",
        b"! Missing \\endcsname inserted.\nl.2\n\\ab \\relax \\endcsname \n",
        1,
    ),
    (
        b"\\message{\\csname a\\noexpand\\zz\\endcsname}\\end\n",
        b"! Missing \\endcsname inserted.\nl.2\n! Undefined control sequence.\nl.2\n\\a \\endcsname \n",
        1,
    ),
    (
        b"\\csname a\\csname b\\endcsname\\endcsname\\end\n",
        b"! Missing \\endcsname inserted.\nl.2\n! Extra \\endcsname.\nl.2\n",
        1,
    ),
    (
        b"\\csname a\\zz b\\endcsname\\message{\\meaning\\ab}\\end\n",
        b"! Undefined control sequence.\nl.2\n\\relax\n",
        1,
    ),
    (b"\\endcsname\\end\n", b"! Extra \\endcsname.\nl.2\n", 1),
    (b"\\message{\\endcsname}\\end\n", b"\\endcsname \n", 0),
    (
        b"\\outer\\def\\o{y}\\message{x\\csname o\\endcsname}\\end\n",
        b"Runaway text?\nx\n! Forbidden control sequence found while scanning text of \\message.\nl.2\nx \n{the letter y}\n! Too many }'s.\nl.2\n",
        1,
    ),
    (
        b"\\message{x\\csname ab",
        b"Runaway text?\nx\n! File ended while scanning text of \\message.\nl.0\n! Emergency stop.\n*** (job aborted, no legal \\end found)\n",
        2,
    ),
];

#[test]
fn names_are_spelt(rt: HostRuntime) {
    rows_hold(&rt, rt.alloc(), &SPELLINGS);
}

/// Names that are let mean something: `\let`, `\futurelet` and `\ignorespaces`.
const MEANINGS: [Row; 24] = [
    (b"\\let\\a\\b\\end\n", b"", 0),
    (b"\\let\\a= \\b\\end\n", b"", 0),
    (
        b"\\futurelet\\a\\b\\relax\\end\n",
        b"! Undefined control sequence.\nl.2\n",
        1,
    ),
    (
        b"\\let\\b=x\\b\\message{\\meaning\\b,\\b}\\end\n",
        b"{the letter x}\nthe letter x,\\b \n",
        0,
    ),
    (
        b"\\let\\m\\message\\m{hi}\\global\\m{x}\\end\n",
        b"hi\n! You can't use a prefix with `\\message'.\nl.2\nx\n",
        1,
    ),
    (
        b"\\let\\m\\message\\m{hi",
        b"Runaway text?\nhi \n! File ended while scanning text of \\m.\nl.0\nhi \n! Emergency stop.\n*** (job aborted, no legal \\end found)\n",
        2,
    ),
    (
        b"\\def\\a{x}\\let\\b=\\a\\def\\a{y}\\message{\\a\\b}\\let\\a\\a\\message{\\a}\\end\n",
        b"yx y\n",
        0,
    ),
    (
        b"\\let\\relax\\zz\\relax\\end\n",
        b"! Undefined control sequence.\nl.2\n",
        1,
    ),
    (
        b"\\outer\\def\\o{x}\\let\\p=\\o\\message{\\p}\\end\n",
        b"Runaway text?\n! Forbidden control sequence found while scanning text of \\message.\nl.2\n \n{the letter x}\n! Too many }'s.\nl.2\n",
        1,
    ),
    (
        b"\\let\\: = =\\message{\\meaning\\:}\\let\\a==\\message{\\meaning\\a}\\end\n",
        b"the character = the character =\n",
        0,
    ),
    (
        b"\\def\\d#1{\\let\\z=#1#1x}\\d{ }\\message{[\\meaning\\z]}\\end\n",
        b"{the letter x}\n[blank space  ]\n",
        0,
    ),
    (
        b"\\def\\:{\\let\\sp= }\\: \\message{\\number7\\sp8[\\meaning\\sp]}\\end\n",
        b"78[blank space  ]\n",
        0,
    ),
    (
        b"\\let\\bgroup={\\message\\bgroup hi}\\def\\a\\bgroup{x}\\message{\\meaning\\a}\\end\n",
        b"hi macro:\\bgroup ->x\n",
        0,
    ),
    (
        b"\\let\\hash=#\\def\\a\\hash1{[\\hash1]}\\message{\\a x\\meaning\\a}\\end\n",
        b"[x]macro:#1->[#1]\n",
        0,
    ),
    (
        b"\\global\\let\\a=b\\long\\let\\a=c\\message{\\meaning\\a}\\end\n",
        b"! You can't use `\\long' or `\\outer' with `\\let'.\nl.2\nthe letter c\n",
        1,
    ),
    (
        b"\\let 5\\relax\\end\n",
        b"! Missing control sequence inserted.\nl.2\n",
        1,
    ),
    (
        b"\\expandafter\\let\\expandafter\\a\\noexpand\\b\\message{\\a\\meaning\\a}\\end\n",
        b"\\a \\relax\n",
        0,
    ),
    (
        b"\\futurelet\\n\\message{\\meaning\\n}\\end\n",
        b"begin-group character {\n",
        0,
    ),
    (
        b"\\def\\a#1{\\message{\\meaning\\n,#1}}\\futurelet\\n\\a xy\\end\n",
        b"the letter x,x\n{the letter y}\n",
        0,
    ),
    (
        b"\\def\\a{\\message{[\\meaning\\n]}}\\def\\:{\\futurelet\\n\\a}\\: x\\end\n",
        b"[blank space  ]\n{blank space  }\n{the letter x}\n",
        0,
    ),
    (b"\\ignorespaces  x\\end\n", b"{the letter x}\n", 0),
    (
        b"\\def\\a{ }\\ignorespaces\\a\\a x\\end\n",
        b"{the letter x}\n",
        0,
    ),
    (
        b"\\ignorespaces\\zz\\ignorespaces\\message{hi}\\ignorespaces\\relax\\ignorespaces\\end\n",
        b"! Undefined control sequence.\nl.2\nhi\n",
        1,
    ),
    (
        b"\\ignorespaces\\global\\let\\a=b\\message{\\meaning\\a}\\global\\ignorespaces x\\end\n",
        b"the letter b\n! You can't use a prefix with `\\ignorespaces'.\nl.2\n{the letter x}\n",
        1,
    ),
];

#[test]
fn names_mean_what_they_are_let(rt: HostRuntime) {
    rows_hold(&rt, rt.alloc(), &MEANINGS);
}

/// What `\show` and `\errmessage` write.
const SHOWN: [Row; 14] = [
    (b"\\show\\undefd\\end\n", b"> \\undefd=undefined.\nl.2\n", 1),
    (
        b"\\def\\a{xy}\\show\\a\\end\n",
        b"> \\a=macro:\n->xy.\nl.2\n",
        1,
    ),
    (
        b"\\long\\outer\\def\\a#1.{[#1]}\\show\\a\\end\n",
        b"> \\a=\\long\\outer macro:\n#1.->[#1].\nl.2\n",
        1,
    ),
    (b"\\show a\\end\n", b"> the letter a.\nl.2\n", 1),
    (
        b"\\def\\a#1{\\show#1}\\a{ }\\show{\\show}\\show#\\show~\\show\\par\\end\n",
        b"> blank space  .\nl.2\n> begin-group character {.\nl.2\n> end-group character }.\nl.2\n> macro parameter character #.\nl.2\n> the character ~.\nl.2\n> \\par=\\par.\nl.2\n",
        1,
    ),
    (b"\\let\\l\\let\\show\\l\\end\n", b"> \\l=\\let.\nl.2\n", 1),
    (
        b"\\expandafter\\show\\noexpand\\zz\\end\n",
        b"> \\zz=\\relax.\nl.2\n",
        1,
    ),
    (
        b"\\catcode`\\~=13 \\def~{x}\\show~\\end\n",
        b"> ~=macro:\n->x.\nl.2\n",
        1,
    ),
    (
        b"\\message{hi}\\show a\\message{ho}\\end\n",
        b"hi\n> the letter a.\nl.2\nho\n",
        1,
    ),
    (b"\\errmessage{no {x}}\\end\n", b"! no {x}.\nl.2\n", 1),
    (
        b"\\def\\a{b}\\errmessage{\\a\\relax}\\errmessage{}\\end\n",
        b"! b\\relax .\nl.2\n! .\nl.2\n",
        1,
    ),
    (
        b"\\errmessage x}\\end\n",
        b"! Missing { inserted.\nl.2\n! x.\nl.2\n",
        1,
    ),
    (
        b"\\global\\errmessage{x}\\end\n",
        b"! You can't use a prefix with `\\errmessage'.\nl.2\n! x.\nl.2\n",
        1,
    ),
    (
        b"\\errmessage{hi",
        b"Runaway text?\nhi \n! File ended while scanning text of \\errmessage.\nl.0\n! hi .\nl.0\n! Emergency stop.\n*** (job aborted, no legal \\end found)\n",
        2,
    ),
];

#[test]
fn meanings_and_errors_are_shown(rt: HostRuntime) {
    rows_hold(&rt, rt.alloc(), &SHOWN);
}

/// Assignments to the six tables of codes. *TeX: The Program*, section 1232.
const CODES: [Row; 13] = [
    (b"\\lccode65=97 \\uccode`\\a=`\\A\\end\n", b"", 0),
    (
        b"\\lccode`\\A=255 \\lccode`\\A=256 \\end\n",
        b"! Invalid code (256), should be in the range 0..255.\nl.2\n",
        1,
    ),
    (
        b"\\uccode97=256 \\end\n",
        b"! Invalid code (256), should be in the range 0..255.\nl.2\n",
        1,
    ),
    (
        b"\\sfcode65=32767 \\sfcode65=32768 \\end\n",
        b"! Invalid code (32768), should be in the range 0..32767.\nl.2\n",
        1,
    ),
    (
        b"\\mathcode65=\"8000 \\mathcode65=32769 \\end\n",
        b"! Invalid code (32769), should be in the range 0..32768.\nl.2\n",
        1,
    ),
    (
        b"\\delcode40=\"FFFFFF \\delcode40=16777216 \\end\n",
        b"! Invalid code (16777216), should be at most 16777215.\nl.2\n",
        1,
    ),
    (b"\\delcode40=-1 \\delcode 41 -2147483647 \\end\n", b"", 0),
    (
        b"\\mathcode40=-1 \\sfcode40=-1 \\end\n",
        b"! Invalid code (-1), should be in the range 0..32768.\nl.2\n! Invalid code (-1), should be in the range 0..32767.\nl.2\n",
        1,
    ),
    (
        b"\\lccode256=1 \\delcode-1=-1 \\end\n",
        b"! Bad character code (256).\nl.2\n! Bad character code (-1).\nl.2\n",
        1,
    ),
    (
        b"\\catcode`\\%=12 \\lccode`\\%=14 \\delcode`\\%=14 \\message{a%b}\\end\n",
        b"a%b\n",
        0,
    ),
    (
        b"\\sfcode`\\x=\\end\\end\n",
        b"! Missing number, treated as zero.\nl.2\n",
        1,
    ),
    (
        b"\\global\\lccode65=97 \\long\\uccode97=65 \\end\n",
        b"! You can't use `\\long' or `\\outer' with `\\uccode'.\nl.2\n",
        1,
    ),
    (
        b"\\message{\\lccode\\meaning\\delcode}\\show\\mathcode\\end\n",
        b"\\lccode \\delcode\n> \\mathcode=\\mathcode.\nl.2\n",
        1,
    ),
];

#[test]
fn codes_are_set_in_their_ranges(rt: HostRuntime) {
    rows_hold(&rt, rt.alloc(), &CODES);
}

/// Files by their names, behind the line with the usual categories, and what they write.
const JOBS: [(&str, &[u8], &[u8]); 4] = [
    (
        "a/b.c/paper.x.tex",
        b"\\message{[\\jobname]}\\end\n",
        b"[paper]\n",
    ),
    ("my job.tex", b"\\message{\\jobname}\\end\n", b"my job\n"),
    (
        "a1.tex",
        b"\\jobname\\end\n",
        b"{the character a}\n{the character 1}\n",
    ),
    (
        "42.tex",
        b"\\message{\\romannumeral\\jobname}\\end\n",
        b"xlii\n",
    ),
];

#[test]
fn the_job_has_its_name(rt: HostRuntime) {
    for row in &JOBS {
        assert!(rt; named_job(rt.alloc(), row.0, row.1, row.2, 0));
    }
}

/// Files whose steps are counted.
const COUNTED: [Counted; 4] = [
    Counted {
        text: b"{\\endgroup\\end\n",
        under: (
            "--steps=34",
            b"! Missing } inserted.\nl.2\n! Extra \\endgroup.\nl.2\n! Step limit reached [steps=34].\n",
        ),
        enough: (
            "--steps=35",
            b"! Missing } inserted.\nl.2\n! Extra \\endgroup.\nl.2\n",
            1,
        ),
    },
    Counted {
        text: b"\\afterassignment\\relax\\newlinechar=2 \\end\n",
        under: ("--steps=37", b"! Step limit reached [steps=37].\n"),
        enough: ("--steps=38", b"", 0),
    },
    Counted {
        text: b"\\afterassignment\\relax\\let\\a\\b\\end\n",
        under: ("--steps=36", b"! Step limit reached [steps=36].\n"),
        enough: ("--steps=37", b"", 0),
    },
    Counted {
        text: b"\\endlinechar=-1\n\n\n\\end\n",
        under: ("--steps=38", b"! Step limit reached [steps=38].\n"),
        enough: ("--steps=39", b"", 0),
    },
];

#[test]
fn commands_take_so_many_steps(rt: HostRuntime) {
    steps_hold(&rt, rt.alloc(), &COUNTED);
}

/// A number that calls itself: each reading has its place in the table.
const DEEP: [Row; 1] = [(
    b"\\def\\a{\\number\\a}\\a",
    b"! TeX capacity exceeded, sorry [expansion depth=400].\n",
    3,
)];

#[test]
fn readings_within_one_another_are_counted(rt: HostRuntime) {
    rows_hold(&rt, rt.alloc(), &DEEP);
}
