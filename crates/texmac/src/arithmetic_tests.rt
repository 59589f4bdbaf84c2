// Arithmetic on integers, names that stand for characters and registers, and `\the`.
use crate::step_tests::{Counted, steps_hold};
use crate::tests::{Row, rows_hold};

/// `\advance`, `\multiply` and `\divide`, with their bounds and reports.
const ARITHMETIC: [Row; 16] = [
    (
        b"\\count1=5 \\advance\\count1 by2 \\message{\\the\\count1}\\advance\\count1 2 \\message{\\the\\count1}\\advance\\count1 BY-10 \\message{\\the\\count1}\\advance\\count1bY\\count1\\message{\\the\\count1}\\end",
        b"7 9 -1 -2\n",
        0,
    ),
    (
        b"\\count1=-7 \\divide\\count1 by2 \\message{\\the\\count1}\\multiply\\count1 by-5 \\message{\\the\\count1}\\divide\\count1-4 \\message{\\the\\count1}\\divide\\count1 by 3\\message{\\the\\count1}\\divide\\count1 by 7 \\message{\\the\\count1}\\end",
        b"-3 15 -3 -1 0\n",
        0,
    ),
    (
        b"\\advance\\tolerance by-1 \\multiply\\mag by 2 \\divide\\maxdeadcycles by-2 \\message{\\the\\tolerance,\\the\\mag,\\the\\maxdeadcycles}\\end",
        b"9999,2000,-12\n",
        0,
    ),
    (
        b"\\count1=1 {\\advance\\count1 by1 \\global\\advance\\count1 by1 \\advance\\count1 by5 \\message{\\the\\count1}}\\message{\\the\\count1}\\end",
        b"8 3\n",
        0,
    ),
    (
        b"\\globaldefs=1 {\\advance\\count1 by4 }\\globaldefs=-1 {\\global\\advance\\count1 by4 }\\message{\\the\\count1}\\end",
        b"4\n",
        0,
    ),
    (
        b"\\def\\x{by}\\count1=3 \\advance\\count1 \\x\\count1 \\message{\\the\\count1}\\advance\\count1 \\x1\\message{\\the\\count1}\\end",
        b"6 7\n",
        0,
    ),
    (
        b"\\advance\\count1 b\\message{\\the\\count1}\\end",
        b"! Missing number, treated as zero.\nl.2\n{the letter b}\n0\n",
        1,
    ),
    (
        b"\\advance\\count1 b y1 \\end",
        b"! Missing number, treated as zero.\nl.2\n{the letter b}\n{blank space  }\n{the letter y}\n{the character 1}\n{blank space  }\n",
        1,
    ),
    (
        b"\\advance\\relax\\message{\\the\\count1}\\let\\adv\\divide\\adv x\\multiply\\message{a}\\advance\\end\\message{b}\\end",
        b"! You can't use `\\relax' after \\advance.\nl.2\n0\n! You can't use `the letter x' after \\divide.\nl.2\n! You can't use `\\message' after \\multiply.\nl.2\n{the letter a}\n! You can't use `\\end' after \\advance.\nl.2\nb\n",
        1,
    ),
    (
        b"\\advance\\catcode\\message{\\the\\catcode`\\a}\\chardef\\c=5 \\advance\\c\\end",
        b"! You can't use `\\catcode' after \\advance.\nl.2\n11\n! You can't use `\\char\"5' after \\advance.\nl.2\n",
        1,
    ),
    (
        b"\\advance\\count256 by1 \\advance\\count-1 by1 \\message{\\the\\count0,\\the\\count256}\\end",
        b"! Bad register code (256).\nl.2\n! Bad register code (-1).\nl.2\n! Bad register code (256).\nl.2\n2,2\n",
        1,
    ),
    (
        b"\\def\\x{\\message{x}}\\afterassignment\\x\\advance\\count1 by1 \\afterassignment\\x\\advance\\relax\\afterassignment\\x\\chardef\\a=1 \\end",
        b"x\n! You can't use `\\relax' after \\advance.\nl.2\nx x\n",
        1,
    ),
    (
        b"\\count1=65536 \\multiply\\count1 by65536 \\message{\\the\\count1}\\divide\\count1 by0 \\message{\\the\\count1}\\multiply\\count1 by-32767 \\message{\\the\\count1}\\end",
        b"! Arithmetic overflow.\nl.2\n65536\n! Arithmetic overflow.\nl.2\n65536 -2147418112\n",
        1,
    ),
    (
        b"\\count1=2147483647 \\advance\\count1 by0 \\message{\\the\\count1}\\advance\\count1 by-2147483647 \\message{\\the\\count1}\\advance\\count1 by-2147483647 \\message{\\the\\count1}\\multiply\\count1 by-1 \\message{\\the\\count1}\\divide\\count1 by-1 \\message{\\the\\count1}\\end",
        b"2147483647 0 -2147483647 2147483647 -2147483647\n",
        0,
    ),
    (
        b"\\count1=2147483647 \\advance\\count1 by1 \\message{\\the\\count1}\\count1=-2147483647 \\advance\\count1 by-1 \\message{\\the\\count1}\\end",
        b"! Arithmetic overflow.\nl.2\n2147483647\n! Arithmetic overflow.\nl.2\n-2147483647\n",
        1,
    ),
    (
        b"\\def\\x{\\message{x}}\\count1=99999 \\afterassignment\\x\\multiply\\count1 by99999 \\message{\\the\\count1}\\end",
        b"! Arithmetic overflow.\nl.2\nx 99999\n",
        1,
    ),
];

#[test]
fn integers_are_computed_with(rt: HostRuntime) {
    rows_hold(&rt, rt.alloc(), &ARITHMETIC);
}

/// Names of characters.
const SHORTHAND: [Row; 9] = [
    (
        b"\\chardef\\a=65 \\message{\\the\\a,\\number\\a,\\number-\\a,\\meaning\\a}\\a\\show\\a\\end",
        b"65,65,-65,\\char\"41\n{\\char\"41}\n> \\a=\\char\"41.\nl.2\n",
        1,
    ),
    (
        b"\\mathchardef\\a=\"141 \\message{\\the\\a,\\meaning\\a}\\catcode\\a=12 \\a\\end",
        b"321,\\mathchar\"141\n! Bad character code (321).\nl.2\n{\\mathchar\"141}\n",
        1,
    ),
    (
        b"\\chardef\\x=\\x\\end",
        b"! Missing number, treated as zero.\nl.2\n{\\char\"0}\n",
        1,
    ),
    (
        b"\\chardef\\a=256 \\mathchardef\\b=32768 \\countdef\\c=256 \\message{\\meaning\\a,\\meaning\\b,\\meaning\\c}\\chardef\\a=-1 \\mathchardef\\b=-1 \\countdef\\c=-1 \\end",
        b"! Bad character code (256).\nl.2\n! Bad mathchar (32768).\nl.2\n! Bad register code (256).\nl.2\n\\char\"0,\\mathchar\"0,\\count0\n! Bad character code (-1).\nl.2\n! Bad mathchar (-1).\nl.2\n! Bad register code (-1).\nl.2\n",
        1,
    ),
    (
        b"\\chardef\\a=255 \\mathchardef\\b=32767 \\countdef\\c=255 \\chardef\\d0 \\message{\\meaning\\a,\\meaning\\b,\\meaning\\c,\\meaning\\d}\\end",
        b"\\char\"FF,\\mathchar\"7FFF,\\count255,\\char\"0\n",
        0,
    ),
    (
        b"{\\chardef\\a=1 \\global\\chardef\\b=2 }\\message{\\meaning\\a,\\meaning\\b}\\end",
        b"undefined,\\char\"2\n",
        0,
    ),
    (
        b"\\globaldefs=1 {\\chardef\\a=65 \\mathchardef\\b=7 }\\message{\\meaning\\a,\\meaning\\b}\\end",
        b"\\char\"41,\\mathchar\"7\n",
        0,
    ),
    (
        b"\\chardef a\\end",
        b"! Missing control sequence inserted.\nl.2\n! Missing number, treated as zero.\nl.2\n{the letter a}\n",
        1,
    ),
    (
        b"\\long\\chardef\\a=66 \\message{\\the\\a}\\outer\\mathchardef\\a=67 \\message{\\the\\a}\\end",
        b"! You can't use `\\long' or `\\outer' with `\\chardef'.\nl.2\n66\n! You can't use `\\long' or `\\outer' with `\\mathchardef'.\nl.2\n67\n",
        1,
    ),
];

#[test]
fn names_stand_for_characters(rt: HostRuntime) {
    rows_hold(&rt, rt.alloc(), &SHORTHAND);
}

/// The text of what stands at a location.
const TOLD: [Row; 9] = [
    (
        b"\\message{\\the x,\\the\\relax,\\the{}\\end",
        b"! You can't use `the letter x' after \\the.\nl.2\n! You can't use `\\relax' after \\the.\nl.2\n! You can't use `begin-group character {' after \\the.\nl.2\n0,0,0\n",
        1,
    ),
    (
        b"\\message{\\the\\catcode65,\\the\\endlinechar,\\the\\lccode`\\A,\\the\\delcode`\\(,\\the\\mathcode`\\a,\\the\\sfcode`\\A,\\the\\uccode`\\a}\\end",
        b"11,13,97,-1,29025,999,65\n",
        0,
    ),
    (
        b"\\count1=4 \\edef\\b{\\the\\count1}\\count1=5 \\message{\\b,\\the\\count1 \\the\\count1 x,\\the\\count\\the\\count1 }\\end",
        b"4,55x,0\n",
        0,
    ),
    (
        b"\\count1=-12 \\the\\count1 \\the\\chardef\\end",
        b"{the character -}\n{the character 1}\n{the character 2}\n! You can't use `\\chardef' after \\the.\nl.2\n{the character 0}\n",
        1,
    ),
    (
        b"\\expandafter\\def\\expandafter\\a\\expandafter{\\the\\tolerance}\\message{\\meaning\\a}\\def\\x{\\tolerance}\\message{\\the\\x}\\end",
        b"macro:->10000 10000\n",
        0,
    ),
    (
        b"\\edef\\a{\\the\\mag\\the\\mag}\\message{\\a,\\meaning\\the,\\meaning\\advance,\\meaning\\countdef}\\end",
        b"10001000,\\the,\\advance,\\countdef\n",
        0,
    ),
    (
        b"\\count1=1 {\\count1=2 \\global\\count1=3 \\count1=4 }\\message{\\the\\count1}\\end",
        b"3\n",
        0,
    ),
    (
        b"\\count0=\"80000000 \\message{\\the\\count0}\\end",
        b"! Number too big.\nl.2\n2147483647\n",
        1,
    ),
    (
        b"\\def\\a{\\the\\a}\\a",
        b"! TeX capacity exceeded, sorry [expansion depth=400].\n",
        3,
    ),
];

#[test]
fn values_are_told(rt: HostRuntime) {
    rows_hold(&rt, rt.alloc(), &TOLD);
}

/// Names of registers.
const REGISTERS: [Row; 4] = [
    (
        b"\\countdef\\x=5 \\x=7 \\message{\\the\\count5,\\the\\x,\\meaning\\x}\\advance\\x by\\x\\message{\\the\\x}\\x-\\x\\message{\\number\\x\\x}\\end",
        b"7,7,\\count5 14 -14\\x \n",
        0,
    ),
    (
        b"\\countdef\\x=5 {\\x=1 \\global\\x=2 \\x 3 }\\message{\\the\\x}\\global\\x4 \\message{\\the\\x}\\end",
        b"2 4\n",
        0,
    ),
    (
        b"\\countdef\\x=5 \\long\\x=3 \\message{\\the\\x}\\outer\\global\\x=4 \\message{\\the\\x}\\end",
        b"! You can't use `\\long' or `\\outer' with `\\count5'.\nl.2\n3\n! You can't use `\\long' or `\\outer' with `\\count5'.\nl.2\n4\n",
        1,
    ),
    (
        b"\\countdef\\x=3 \\countdef\\y=4 \\x=10 \\y=\\x\\advance\\y by-\\x\\count\\x=7 \\message{\\the\\y,\\the\\count10,\\the\\x}\\let\\z=\\x\\z=2 \\message{\\the\\x}\\end",
        b"0,7,10 2\n",
        0,
    ),
];

#[test]
fn names_stand_for_registers(rt: HostRuntime) {
    rows_hold(&rt, rt.alloc(), &REGISTERS);
}

/// How many steps the commands take: the least `--steps` at which the run isn't stopped.
const COUNTED: [Counted; 2] = [
    Counted {
        text: b"\\countdef\\a=5 \\end\n",
        under: ("--steps=35", b"! Step limit reached [steps=35].\n"),
        enough: ("--steps=36", b"", 0),
    },
    Counted {
        text: b"\\countdef\\a=5 \\a=7 \\end\n",
        under: ("--steps=39", b"! Step limit reached [steps=39].\n"),
        enough: ("--steps=40", b"", 0),
    },
];

#[test]
fn arithmetic_takes_so_many_steps(rt: HostRuntime) {
    steps_hold(&rt, rt.alloc(), &COUNTED);
}
