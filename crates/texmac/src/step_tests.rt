// How many steps statements take.
use crate::tests::job_with;
use std::alloc::Global;
use std::process::Abort;

/// A file, the bound at which its run needs one step more and what it writes then, and the bound that is enough, what it writes and its status.
pub struct Counted {
    pub text: &'static [u8],
    pub under: (&'static str, &'static [u8]),
    pub enough: (&'static str, &'static [u8], u8),
}

/// Statements of each kind, whose steps are counted: the least `--steps` at which the run isn't stopped.
const STATEMENTS: [Counted; 30] = [
    Counted {
        text: b"\\count1=5 \\end\n",
        under: ("--steps=36", b"! Step limit reached [steps=36].\n"),
        enough: ("--steps=37", b"", 0),
    },
    Counted {
        text: b"\\count1 5 \\end\n",
        under: ("--steps=35", b"! Step limit reached [steps=35].\n"),
        enough: ("--steps=36", b"", 0),
    },
    Counted {
        text: b"\\parindent=1pt \\end\n",
        under: ("--steps=40", b"! Step limit reached [steps=40].\n"),
        enough: ("--steps=41", b"", 0),
    },
    Counted {
        text: b"\\parindent=1sp \\end\n",
        under: ("--steps=48", b"! Step limit reached [steps=48].\n"),
        enough: ("--steps=49", b"", 0),
    },
    Counted {
        text: b"\\parindent=1.5pt \\end\n",
        under: ("--steps=42", b"! Step limit reached [steps=42].\n"),
        enough: ("--steps=43", b"", 0),
    },
    Counted {
        text: b"\\parindent=.5\\hsize\\end\n",
        under: ("--steps=35", b"! Step limit reached [steps=35].\n"),
        enough: ("--steps=36", b"", 0),
    },
    Counted {
        text: b"\\parindent=2\\hsize\\end\n",
        under: ("--steps=35", b"! Step limit reached [steps=35].\n"),
        enough: ("--steps=36", b"", 0),
    },
    Counted {
        text: b"\\parskip=1pt plus 1fil \\end\n",
        under: ("--steps=54", b"! Step limit reached [steps=54].\n"),
        enough: ("--steps=55", b"", 0),
    },
    Counted {
        text: b"\\parskip=1pt plus1.5fil \\end\n",
        under: ("--steps=55", b"! Step limit reached [steps=55].\n"),
        enough: ("--steps=56", b"", 0),
    },
    Counted {
        text: b"\\parskip=\\baselineskip \\end\n",
        under: ("--steps=33", b"! Step limit reached [steps=33].\n"),
        enough: ("--steps=34", b"", 0),
    },
    Counted {
        text: b"\\dimen1=\\count1pt \\end\n",
        under: ("--steps=43", b"! Step limit reached [steps=43].\n"),
        enough: ("--steps=44", b"", 0),
    },
    Counted {
        text: b"\\toks1={ab}\\end\n",
        under: ("--steps=38", b"! Step limit reached [steps=38].\n"),
        enough: ("--steps=39", b"", 0),
    },
    Counted {
        text: b"\\toks1{ab}\\end\n",
        under: ("--steps=37", b"! Step limit reached [steps=37].\n"),
        enough: ("--steps=38", b"", 0),
    },
    Counted {
        text: b"\\toks1=\\toks2 \\end\n",
        under: ("--steps=37", b"! Step limit reached [steps=37].\n"),
        enough: ("--steps=38", b"", 0),
    },
    Counted {
        text: b"\\edef\\a{\\the\\count1}\\end\n",
        under: ("--steps=39", b"! Step limit reached [steps=39].\n"),
        enough: ("--steps=40", b"", 0),
    },
    Counted {
        text: b"\\toks1={ab}\\edef\\a{\\the\\toks1}\\end\n",
        under: ("--steps=46", b"! Step limit reached [steps=46].\n"),
        enough: ("--steps=47", b"", 0),
    },
    Counted {
        text: b"\\message{\\the\\hsize}\\end\n",
        under: ("--steps=40", b"0.0pt\n! Step limit reached [steps=40].\n"),
        enough: ("--steps=41", b"0.0pt\n", 0),
    },
    Counted {
        text: b"\\advance\\count1 by2 \\end\n",
        under: ("--steps=38", b"! Step limit reached [steps=38].\n"),
        enough: ("--steps=39", b"", 0),
    },
    Counted {
        text: b"\\advance\\count1 2 \\end\n",
        under: ("--steps=37", b"! Step limit reached [steps=37].\n"),
        enough: ("--steps=38", b"", 0),
    },
    Counted {
        text: b"\\chardef\\a=65 \\end\n",
        under: ("--steps=36", b"! Step limit reached [steps=36].\n"),
        enough: ("--steps=37", b"", 0),
    },
    Counted {
        text: b"\\let\\a\\b\\end\n",
        under: ("--steps=33", b"! Step limit reached [steps=33].\n"),
        enough: ("--steps=34", b"", 0),
    },
    Counted {
        text: b"\\let\\a= \\b\\end\n",
        under: ("--steps=35", b"! Step limit reached [steps=35].\n"),
        enough: ("--steps=36", b"", 0),
    },
    Counted {
        text: b"\\ifnum1<2 \\fi\\end\n",
        under: ("--steps=37", b"! Step limit reached [steps=37].\n"),
        enough: ("--steps=38", b"", 0),
    },
    Counted {
        text: b"\\ifcase2 a\\or b\\or c\\else d\\fi\\end\n",
        under: (
            "--steps=41",
            b"{the letter c}\n! Step limit reached [steps=41].\n",
        ),
        enough: ("--steps=42", b"{the letter c}\n", 0),
    },
    Counted {
        text: b"\\expandafter\\let\\csname ab\\endcsname\\relax\\end\n",
        under: ("--steps=39", b"! Step limit reached [steps=39].\n"),
        enough: ("--steps=40", b"", 0),
    },
    Counted {
        text: b"\\def\\a#1.{#1#1}\\a xy.\\end\n",
        under: (
            "--steps=49",
            b"{the letter x}\n{the letter y}\n{the letter x}\n{the letter y}\n! Step limit reached [steps=49].\n",
        ),
        enough: (
            "--steps=50",
            b"{the letter x}\n{the letter y}\n{the letter x}\n{the letter y}\n",
            0,
        ),
    },
    Counted {
        text: b"\\uppercase{ab}\\end\n",
        under: (
            "--steps=37",
            b"{the letter A}\n{the letter B}\n! Step limit reached [steps=37].\n",
        ),
        enough: ("--steps=38", b"{the letter A}\n{the letter B}\n", 0),
    },
    Counted {
        text: b"\\afterassignment\\relax\\count1=2 \\end\n",
        under: ("--steps=39", b"! Step limit reached [steps=39].\n"),
        enough: ("--steps=40", b"", 0),
    },
    Counted {
        text: b"{\\aftergroup x}\\end\n",
        under: (
            "--steps=35",
            b"{the letter x}\n! Step limit reached [steps=35].\n",
        ),
        enough: ("--steps=36", b"{the letter x}\n", 0),
    },
    Counted {
        text: b"\\futurelet\\a\\b\\relax\\end\n",
        under: (
            "--steps=36",
            b"! Undefined control sequence.\nl.2\n! Step limit reached [steps=36].\n",
        ),
        enough: ("--steps=37", b"! Undefined control sequence.\nl.2\n", 1),
    },
];

/// Whether a file takes so many steps.
fn is_counted(alloc: Global, row: &Counted) -> bool {
    let (under, enough) = (row.under, row.enough);
    let short = ["texmac", "init", under.0, "job"];
    let long = ["texmac", "init", enough.0, "job"];
    job_with(alloc, &short, row.text, under.1, 4)
        && job_with(alloc, &long, row.text, enough.1, enough.2)
}

/// Each of the files takes so many steps; the row that doesn't is named.
pub fn steps_hold(rt: &impl Abort, alloc: Global, rows: &[Counted]) {
    for (k, row) in rows.iter().enumerate() {
        assert!(rt; is_counted(alloc, row), "row {k}");
    }
}

#[test]
fn statements_take_so_many_steps(rt: HostRuntime) {
    steps_hold(&rt, rt.alloc(), &STATEMENTS);
}
