// Numbers that stand at registers, codes and parameters: `\count` and the integer parameters.
use crate::group_tests::{Long, long_jobs_hold};
use crate::step_tests::{Counted, steps_hold};
use crate::tests::{Row, job, rows_hold};
use std::alloc::{AllocError, Global};

/// Registers, codes and parameters, read where a number is.
const READ: [Row; 16] = [
    (
        b"\\count1=1 {\\count1=2 \\global\\count1=3 \\count1=4 }\\message{\\number\\count1}\\end",
        b"3\n",
        0,
    ),
    (
        b"\\message{\\number\\catcode`\\%,\\number\\catcode`\\a,\\number\\catcode`\\1,\\number\\catcode\\number`\\\\}\\end",
        b"14,11,12,0\n",
        0,
    ),
    (
        b"\\message{\\number\\lccode`\\A,\\number\\lccode`\\1,\\number\\uccode`\\a,\\number\\sfcode`\\A,\\number\\sfcode`\\a}\\end",
        b"97,0,65,999,1000\n",
        0,
    ),
    (
        b"\\message{\\number\\mathcode`\\a,\\number\\mathcode`\\1,\\number\\mathcode`\\+,\\number\\delcode`\\.,\\number\\delcode`\\(}\\end",
        b"29025,28721,43,0,-1\n",
        0,
    ),
    (
        b"\\count1=-7 \\message{\\number\\count1,\\number-\\count1,\\number- -\\count1,\\number+-+\\count1,\\number--+-\\count1 ;}\\end",
        b"-7,7,-7,7,7;\n",
        0,
    ),
    (
        b"\\message{\\number-\\tolerance,\\number+ \\mag,\\number- - -\\delcode`\\(,\\number-\\lccode`A }\\end",
        b"-10000,1000,1,-97\n",
        0,
    ),
    (
        b"\\count1=5 \\message{\\number\\count1 x,\\number\\count 1x,\\number\\count\"1 x,\\number\\count`\\^^Ax}\\end",
        b"5x,5x,5x,5x\n",
        0,
    ),
    (
        b"\\def\\s{ }\\count1=5 \\message{\\number\\count1\\s x,\\number\\count1 \\s x,\\number\\tolerance\\s x,\\number\\tolerance x,\\number\\catcode`a\\s x,\\number\\catcode`a \\s x}\\end",
        b"5x,5 x,10000 x,10000x,11x,11 x\n",
        0,
    ),
    (
        b"\\count1=2 \\count2=3 \\count3=7 \\message{\\number\\count\\count\\count1,\\number\\count\\count1,\\number-\\count\\count\\count1}\\count\\count\\count1=9 \\message{\\number\\count3}\\end",
        b"7,3,-7 9\n",
        0,
    ),
    (
        b"\\count1=65 \\message{\\number\\lccode\\count1,\\number\\catcode\\lccode\\count1,\\number\\count\\catcode`\\\\}\\end",
        b"97,11,0\n",
        0,
    ),
    (
        b"\\count1=37 \\count2=12 \\catcode\\count1=\\count2 \\message{a%b}\\end",
        b"a%b\n",
        0,
    ),
    (
        b"\\count1=4 \\edef\\a{\\number\\count1}\\count1=5 \\message{\\a\\romannumeral\\count1}\\end",
        b"4v\n",
        0,
    ),
    (
        b"\\count2=5 \\count1\\count2\\count3=-\\count2\\message{\\number\\count1,\\number\\count3\\count2}\\end",
        b"5,-5\\count 2\n",
        0,
    ),
    (
        b"\\let\\c=\\count\\let\\t=\\tolerance\\c1=5 \\t=3 \\message{\\number\\c1,\\number\\tolerance,\\number\\t,\\meaning\\c,\\meaning\\t}\\end",
        b"5,3,3,\\count,\\tolerance\n",
        0,
    ),
    (
        b"\\message{\\count1\\tolerance\\meaning\\count}\\show\\count\\show\\mag\\end",
        b"\\count 1\\tolerance \\count\n> \\count=\\count.\nl.2\n> \\mag=\\mag.\nl.2\n",
        1,
    ),
    (
        b"\\def\\x{\\tolerance}\\message{\\number\\x,\\number\\expandafter\\count\\number\\count0 }\\end",
        b"10000,0\n",
        0,
    ),
];

#[test]
fn integers_are_read_where_they_stand(rt: HostRuntime) {
    rows_hold(&rt, rt.alloc(), &READ);
}

/// Registers and parameters are assigned.
const ASSIGNED: [Row; 11] = [
    (
        b"\\count1=5 \\message{\\number\\count1}\\count 1 = 6 \\message{\\number\\count1}\\count1 7 \\message{\\number\\count1}\\end",
        b"5 6 7\n",
        0,
    ),
    (
        b"\\count1=5\\count1=6\\relax\\message{\\number\\count1}\\end",
        b"6\n",
        0,
    ),
    (
        b"\\count1=\"7F \\count2='17 \\count3=`A\\count4=`\\%\\count255=-0\\message{\\number\\count1,\\number\\count2,\\number\\count3,\\number\\count4,\\number\\count255}\\end",
        b"127,15,65,37,0\n",
        0,
    ),
    (
        b"\\count1=2147483647 \\count2=-2147483647 \\message{\\number\\count1,\\number\\count2,\\number-\\count2}\\end",
        b"2147483647,-2147483647,2147483647\n",
        0,
    ),
    (
        b"{\\tolerance=5 {\\tolerance=6 }\\message{\\number\\tolerance}}\\message{\\number\\tolerance}\\end",
        b"5 10000\n",
        0,
    ),
    (
        b"{\\global\\tolerance=5 \\tolerance=7 }\\message{\\number\\tolerance}\\end",
        b"5\n",
        0,
    ),
    (
        b"\\globaldefs=1 {\\count1=2 }\\message{\\number\\count1}\\globaldefs=-1 {\\global\\count1=3 \\message{\\number\\count1}}\\message{\\number\\count1}\\end",
        b"2 3 2\n",
        0,
    ),
    (
        b"\\def\\x{\\message{x}}\\afterassignment\\x\\count1=2\\message{y}\\afterassignment\\x\\hbadness\\count1\\message{\\number\\hbadness}\\end",
        b"x y x 2\n",
        0,
    ),
    (
        b"\\escapechar=`\\! \\message{\\number\\escapechar\\string\\a}\\end",
        b"33!a\n",
        0,
    ),
    (
        b"\\long\\count1=1 \\outer\\count2=2 \\message{\\number\\count1,\\number\\count2}\\end",
        b"! You can't use `\\long' or `\\outer' with `\\count'.\nl.2\n! You can't use `\\long' or `\\outer' with `\\count'.\nl.2\n1,2\n",
        1,
    ),
    (
        b"\\outer\\global\\tolerance=5 \\message{\\number\\tolerance}\\end",
        b"! You can't use `\\long' or `\\outer' with `\\tolerance'.\nl.2\n5\n",
        1,
    ),
];

#[test]
fn registers_and_parameters_are_assigned(rt: HostRuntime) {
    rows_hold(&rt, rt.alloc(), &ASSIGNED);
}

/// Numbers that are too big, missing or out of their range.
const REPORTED: [Row; 20] = [
    (
        b"\\count0=\"80000000 \\message{\\number\\count0}\\end",
        b"! Number too big.\nl.2\n2147483647\n",
        1,
    ),
    (
        b"\\count0=-2147483648 \\message{\\number\\count0}\\end",
        b"! Number too big.\nl.2\n-2147483647\n",
        1,
    ),
    (
        b"\\count256=5 \\message{\\number\\count0}\\count-1=6 \\message{\\number\\count0}\\end",
        b"! Bad register code (256).\nl.2\n5\n! Bad register code (-1).\nl.2\n6\n",
        1,
    ),
    (
        b"\\count0=5 \\message{\\number\\count256 ,\\number-\\count-1}\\end",
        b"! Bad register code (256).\nl.2\n! Bad register code (-1).\nl.2\n5,-5\n",
        1,
    ),
    (
        b"\\count0=1 \\count1=8 \\message{\\number\\count\\count256 }\\end",
        b"! Bad register code (256).\nl.2\n8\n",
        1,
    ),
    (
        b"\\count1=256 \\count0=4 \\message{\\number\\count\\count1}\\count\\count1=3 \\message{\\number\\count0}\\end",
        b"! Bad register code (256).\nl.2\n4\n! Bad register code (256).\nl.2\n3\n",
        1,
    ),
    (
        b"\\message{\\number\\catcode256 ,\\number\\lccode-1,\\number\\uccode256,\\number\\sfcode256 ,\\number\\mathcode-1,\\number\\delcode300 }\\end",
        b"! Bad character code (256).\nl.2\n! Bad character code (-1).\nl.2\n! Bad character code (256).\nl.2\n! Bad character code (256).\nl.2\n! Bad character code (-1).\nl.2\n! Bad character code (300).\nl.2\n9,0,0,1000,0,-1\n",
        1,
    ),
    (
        b"\\message{\\number\\lccode\\catcode256 ,\\number\\count\\mathcode256 }\\end",
        b"! Bad character code (256).\nl.2\n! Bad character code (256).\nl.2\n0,0\n",
        1,
    ),
    (
        b"\\catcode256=9 \\uccode\\count256=8 \\message{\\number\\uccode0 }\\end",
        b"! Bad character code (256).\nl.2\n! Bad register code (256).\nl.2\n8\n",
        1,
    ),
    (
        b"\\message{\\number\\count2147483648 ,\\number-\\catcode-2147483648 }\\end",
        b"! Number too big.\nl.2\n! Bad register code (2147483647).\nl.2\n! Number too big.\nl.2\n! Bad character code (-2147483647).\nl.2\n0,-9\n",
        1,
    ),
    (
        b"\\count0=5 \\message{\\number\\count\\relax}\\end",
        b"! Missing number, treated as zero.\nl.2\n5\\relax \n",
        1,
    ),
    (
        b"\\count\\relax\\message{\\number\\count0}\\end",
        b"! Missing number, treated as zero.\nl.2\n! Missing number, treated as zero.\nl.2\n0\n",
        1,
    ),
    (
        b"\\count0=3 \\count=4 \\message{\\number\\count0}\\end",
        b"! Missing number, treated as zero.\nl.2\n4\n",
        1,
    ),
    (
        b"\\count1=\\relax\\tolerance\\message{\\number\\tolerance}\\end",
        b"! Missing number, treated as zero.\nl.2\n! Missing number, treated as zero.\nl.2\n0\n",
        1,
    ),
    (
        b"\\message{\\number\\count-\\relax,\\number\\catcode`\\ab}\\end",
        b"! Missing number, treated as zero.\nl.2\n! Improper alphabetic constant.\nl.2\n! Undefined control sequence.\nl.2\n0\\relax ,12\n",
        1,
    ),
    (
        b"\\count1=256 \\catcode`\\!=\\count1\\message{\\number\\catcode`\\!}\\end",
        b"! Invalid code (256), should be in the range 0..15.\nl.2\n0\n",
        1,
    ),
    (
        b"\\def\\x{\\message{x}}\\afterassignment\\x\\count256=2\\message{\\number\\count0}\\end",
        b"! Bad register code (256).\nl.2\nx 2\n",
        1,
    ),
    (
        b"\\count1=\\count",
        b"! Emergency stop.\n*** (job aborted, no legal \\end found)\n",
        2,
    ),
    (
        b"\\message{\\number\\count",
        b"Runaway text?\n! File ended while scanning text of \\message.\nl.0\n! Missing number, treated as zero.\nl.0\n0\n! Emergency stop.\n*** (job aborted, no legal \\end found)\n",
        2,
    ),
    (
        b"\\count0=7 \\count1=\\zz\\count\\zz 0\\message{\\number\\count1}\\end",
        b"! Undefined control sequence.\nl.2\n! Undefined control sequence.\nl.2\n7\n",
        1,
    ),
];

#[test]
fn numbers_out_of_range_are_reported(rt: HostRuntime) {
    rows_hold(&rt, rt.alloc(), &REPORTED);
}

/// Names of commands and numbers that are not built.
const UNDEFINED: [Row; 2] = [
    (
        b"\\showbox\\write\\openin\\output\\end",
        b"! Undefined control sequence.\nl.2\n! Undefined control sequence.\nl.2\n! Undefined control sequence.\nl.2\n! Undefined control sequence.\nl.2\n",
        1,
    ),
    (
        b"\\message{\\number\\lastpenalty 7 ,\\number\\fontdimen\\count0 }\\end",
        b"! Undefined control sequence.\nl.2\n! Undefined control sequence.\nl.2\n7,0\n",
        1,
    ),
];

#[test]
fn other_names_mean_nothing(rt: HostRuntime) {
    rows_hold(&rt, rt.alloc(), &UNDEFINED);
}

/// The integer parameters: the name, INITEX's value and another one, which no other parameter gets.
const PARAMETERS: [(&[u8], &[u8], &[u8]); 55] = [
    (b"pretolerance", b"0", b"-2147483647"),
    (b"tolerance", b"10000", b"2147483647"),
    (b"linepenalty", b"0", b"-2147483646"),
    (b"hyphenpenalty", b"0", b"2147483646"),
    (b"exhyphenpenalty", b"0", b"-2147483645"),
    (b"clubpenalty", b"0", b"2147483645"),
    (b"widowpenalty", b"0", b"-2147483644"),
    (b"displaywidowpenalty", b"0", b"2147483644"),
    (b"brokenpenalty", b"0", b"-2147483643"),
    (b"binoppenalty", b"0", b"2147483643"),
    (b"relpenalty", b"0", b"-2147483642"),
    (b"predisplaypenalty", b"0", b"2147483642"),
    (b"postdisplaypenalty", b"0", b"-2147483641"),
    (b"interlinepenalty", b"0", b"2147483641"),
    (b"doublehyphendemerits", b"0", b"-2147483640"),
    (b"finalhyphendemerits", b"0", b"2147483640"),
    (b"adjdemerits", b"0", b"-2147483639"),
    (b"mag", b"1000", b"2147483639"),
    (b"delimiterfactor", b"0", b"-2147483638"),
    (b"looseness", b"0", b"2147483638"),
    (b"time", b"720", b"-2147483637"),
    (b"day", b"4", b"2147483637"),
    (b"month", b"7", b"-2147483636"),
    (b"year", b"1776", b"2147483636"),
    (b"showboxbreadth", b"0", b"-2147483635"),
    (b"showboxdepth", b"0", b"2147483635"),
    (b"hbadness", b"0", b"-2147483634"),
    (b"vbadness", b"0", b"2147483634"),
    (b"pausing", b"0", b"-2147483633"),
    (b"tracingonline", b"0", b"-2147483433"),
    (b"tracingmacros", b"0", b"-2147483632"),
    (b"tracingstats", b"0", b"-2147483432"),
    (b"tracingparagraphs", b"0", b"-2147483631"),
    (b"tracingpages", b"0", b"-2147483431"),
    (b"tracingoutput", b"0", b"-2147483630"),
    (b"tracinglostchars", b"0", b"-2147483430"),
    (b"tracingcommands", b"0", b"-2147483629"),
    (b"tracingrestores", b"0", b"-2147483429"),
    (b"uchyph", b"0", b"-2147483628"),
    (b"outputpenalty", b"0", b"2147483628"),
    (b"maxdeadcycles", b"25", b"-2147483627"),
    (b"hangafter", b"1", b"2147483627"),
    (b"floatingpenalty", b"0", b"-2147483626"),
    (b"globaldefs", b"0", b"2147483626"),
    (b"fam", b"0", b"-2147483625"),
    (b"escapechar", b"92", b"2147483625"),
    (b"defaulthyphenchar", b"0", b"-2147483624"),
    (b"defaultskewchar", b"0", b"2147483624"),
    (b"endlinechar", b"13", b"-2147483623"),
    (b"newlinechar", b"0", b"2147483623"),
    (b"language", b"0", b"-2147483622"),
    (b"lefthyphenmin", b"0", b"2147483622"),
    (b"righthyphenmin", b"0", b"-2147483621"),
    (b"holdinginserts", b"0", b"2147483621"),
    (b"errorcontextlines", b"0", b"-2147483620"),
];

/// Adds what reads the parameter of this name, and a comma.
fn add_reading(text: &mut Vec<u8>, name: &[u8]) -> Result<(), AllocError> {
    text.extend_from_slice(b"\\number\\")?;
    text.extend_from_slice(name)?;
    text.extend_from_slice(b",%\n")
}

/// Adds what assigns this value to the parameter of this name.
fn add_assignment(text: &mut Vec<u8>, name: &[u8], value: &[u8]) -> Result<(), AllocError> {
    text.extend_from_slice(b"\\")?;
    text.extend_from_slice(name)?;
    text.extend_from_slice(b"=")?;
    text.extend_from_slice(value)?;
    text.extend_from_slice(b"%\n")
}

/// Adds this value, and a comma.
fn add_value(written: &mut Vec<u8>, value: &[u8]) -> Result<(), AllocError> {
    written.extend_from_slice(value)?;
    written.extend_from_slice(b",")
}

/// Whether this text, and then a message of the values of all parameters, writes these values.
fn are_written(alloc: Global, mut text: Vec<u8>, mut written: Vec<u8>) -> Result<bool, AllocError> {
    text.extend_from_slice(b"\\message{")?;
    for row in &PARAMETERS {
        add_reading(&mut text, row.0)?;
    }
    text.extend_from_slice(b"}\\end\n")?;
    written.extend_from_slice(b"\n")?;
    Ok(job(alloc, text.as_slice(), written.as_slice(), 0))
}

/// Whether the parameters have INITEX's values.
fn have_first_values(alloc: Global) -> Result<bool, AllocError> {
    let mut written = Vec::new(alloc);
    for row in &PARAMETERS {
        add_value(&mut written, row.1)?;
    }
    are_written(alloc, Vec::new(alloc), written)
}

/// Whether the parameters have the others once each of them is assigned.
fn have_other_values(alloc: Global) -> Result<bool, AllocError> {
    let mut text = Vec::new(alloc);
    let mut written = Vec::new(alloc);
    for row in &PARAMETERS {
        add_assignment(&mut text, row.0, row.2)?;
        add_value(&mut written, row.2)?;
    }
    are_written(alloc, text, written)
}

#[test]
fn integer_parameters_have_their_own_values(rt: HostRuntime) {
    assert!(rt; matches!(have_first_values(rt.alloc()), Ok(true)));
    assert!(rt; matches!(have_other_values(rt.alloc()), Ok(true)));
}

/// Files whose steps are counted.
const COUNTED: [Counted; 4] = [
    Counted {
        text: b"\\count1=\\count2 \\end\n",
        under: ("--steps=37", b"! Step limit reached [steps=37].\n"),
        enough: ("--steps=38", b"", 0),
    },
    Counted {
        text: b"\\count1\\count2 \\end\n",
        under: ("--steps=36", b"! Step limit reached [steps=36].\n"),
        enough: ("--steps=37", b"", 0),
    },
    Counted {
        text: b"\\count1=\\tolerance\\end\n",
        under: ("--steps=35", b"! Step limit reached [steps=35].\n"),
        enough: ("--steps=36", b"", 0),
    },
    Counted {
        text: b"\\edef\\a{\\number\\count1}\\end\n",
        under: ("--steps=39", b"! Step limit reached [steps=39].\n"),
        enough: ("--steps=40", b"", 0),
    },
];

#[test]
fn internal_integers_take_so_many_steps(rt: HostRuntime) {
    steps_hold(&rt, rt.alloc(), &COUNTED);
}

/// What an `\end` in one group writes.
const IN_ONE: &[u8] = b"(\\end occurred inside a group at level 1)\n";

/// What a full save stack writes.
const SAVE_SIZE: &[u8] = b"! TeX capacity exceeded, sorry [save size=600].\n";

/// Registers and parameters that fill the save stack, and numbers of registers that fill the expansion depth, as many as have room
/// and one more.
const LONG: [Long; 5] = [
    Long {
        first: b"{",
        text: (b"\\aftergroup\\relax\n", 598),
        last: b"\\count1=5 \\count1=6 \\global\\count2=7 \\end",
        written: IN_ONE,
        status: 0,
    },
    Long {
        first: b"{",
        text: (b"\\aftergroup\\relax\n", 599),
        last: b"\\global\\count2=7 \\message{\\number\\count2}\\count1=5 \\end",
        written: b"7\n! TeX capacity exceeded, sorry [save size=600].\n",
        status: 3,
    },
    Long {
        first: b"{",
        text: (b"\\aftergroup\\relax\n", 599),
        last: b"\\tolerance=5 \\end",
        written: SAVE_SIZE,
        status: 3,
    },
    Long {
        first: b"",
        text: (b"\\count\n", 399),
        last: b"1=5 \\message{\\number\\count0}\\end",
        written: b"5\n",
        status: 0,
    },
    Long {
        first: b"",
        text: (b"\\count\n", 400),
        last: b"1=5 \\message{\\number\\count0}\\end",
        written: b"! TeX capacity exceeded, sorry [expansion depth=400].\n",
        status: 3,
    },
];

#[test]
fn full_tables_end_a_run_at_a_register(rt: HostRuntime) {
    long_jobs_hold(&rt, rt.alloc(), &LONG);
}
