// Lists of tokens: their registers and parameters, `\the`, `\showthe`, `\uppercase` and `\lowercase`.
use crate::macro_tests::repeated;
use crate::size_tests::{IN_GROUP, LEAST, words_at, words_where_full};
use crate::step_tests::{Counted, steps_hold};
use crate::tests::{Row, job, rows_hold};
use std::alloc::{AllocError, Global};
use tex_defs::Table;

/// Registers and names of registers get lists, and share them.
const REGISTERS: [Row; 16] = [
    (
        b"\\toks0={xy}\\toks0=\\toks0 \\let\\a=\\a\\message{\\the\\toks0}\\end",
        b"xy\n",
        0,
    ),
    (
        b"\\toks0={a{b}c}\\message{\\the\\toks0,\\the\\toks1,\\the\\toks255}\\end",
        b"a{b}c,,\n",
        0,
    ),
    (
        b"\\toks1{ab}\\toks 2 {cd}\\toks3 = {ef}\\toks255=\\toks3\\message{\\the\\toks1\\the\\toks2\\the\\toks3\\the\\toks255}\\end",
        b"abcdefef\n",
        0,
    ),
    (
        b"\\toks0={a}\\toks1\\toks0\\toks0={b}\\message{\\the\\toks1\\the\\toks0}\\toks0={}\\message{\\the\\toks1[\\the\\toks0]}\\end",
        b"ab a[]\n",
        0,
    ),
    (
        b"\\toks0={a}\\toks1=\\toks2 \\toks0=\\toks1 \\message{[\\the\\toks0\\the\\toks1]}\\toks3={}\\toks0=\\toks3 \\message{[\\the\\toks0]}\\end",
        b"[] []\n",
        0,
    ),
    (
        b"\\toksdef\\t=7 \\t={abc}\\message{\\the\\t,\\the\\toks7,\\meaning\\t}\\toks8\\t\\toksdef\\s9 \\s=\\t\\message{\\the\\toks8\\the\\s}\\show\\t\\show\\toks\\end",
        b"abc,abc,\\toks7 abcabc\n> \\t=\\toks7.\nl.2\n> \\toks=\\toks.\nl.2\n",
        1,
    ),
    (
        b"\\toksdef\\t=7 \\let\\u=\\t\\u{x}\\toksdef\\t=8 \\t={y}\\message{\\the\\u,\\the\\t,\\meaning\\t,\\meaning\\u}\\end",
        b"x,y,\\toks8,\\toks7\n",
        0,
    ),
    (
        b"\\toksdef\\t=3 \\t=\\t\\message{[\\the\\t]}\\toks3={z}\\t=\\t\\message{\\the\\t}\\let\\T=\\toks\\T3={w}\\message{\\the\\t\\meaning\\T}\\end",
        b"[] z w\\toks\n",
        0,
    ),
    (
        b"\\count1=5 \\toks\\count1={five}\\toks\\number6={six}\\message{\\the\\toks\\count1,\\the\\toks\\the\\count1,\\the\\toks6}\\end",
        b"five,five,six\n",
        0,
    ),
    (
        b"\\toks1={\\a\\undefined\\par a {}}\\message{\\the\\toks1}\\end",
        b"\\a \\undefined \\par a {}\n",
        0,
    ),
    (
        b"\\toks0={a\n\nb}\\message{\\the\\toks0}\\end",
        b"a \\par b\n",
        0,
    ),
    (
        b"\\toks0={~}\\catcode`\\~=13 \\toks1={~}\\def~{t}\\message{\\the\\toks0,\\the\\toks1}\\end",
        b"~,~\n",
        0,
    ),
    (
        b"\\toks0=\\expandafter{\\number12}\\toks0=\\expandafter{\\the\\toks0 c}\\message{\\the\\toks0}\\end",
        b"12c\n",
        0,
    ),
    (
        b"\\toks0={a}\\toks1={b}\\toks0=\\expandafter\\expandafter\\expandafter{\\expandafter\\the\\expandafter\\toks\\expandafter0\\the\\toks1}\\message{\\the\\toks0}\\end",
        b"ab\n",
        0,
    ),
    (
        b"\\def\\a#1#2{\\toks#1={#2}}\\a1{xy}\\a2\\toks\\message{\\the\\toks1,\\the\\toks2}\\end",
        b"xy,\\toks \n",
        0,
    ),
    (
        b"\\futurelet\\a\\toks0={ab}\\message{\\the\\toks0,\\meaning\\a}\\end",
        b"ab,the character 0\n",
        0,
    ),
];

#[test]
fn registers_hold_lists(rt: HostRuntime) {
    rows_hold(&rt, rt.alloc(), &REGISTERS);
}

/// The token parameters.
const PARAMETERS: [Row; 5] = [
    (
        b"\\everypar{a}\\everymath={b}\\everydisplay{c}\\everyhbox={d}\\everyvbox{e}\\everyjob{f}\\everycr{g}\\errhelp{h}\\message{\\the\\everypar\\the\\everymath\\the\\everydisplay\\the\\everyhbox\\the\\everyvbox\\the\\everyjob\\the\\everycr\\the\\errhelp}\\end",
        b"abcdefgh\n",
        0,
    ),
    (
        b"\\toks1={t}\\everypar=\\toks1\\everymath\\everypar\\everycr=\\everymath\\toks2\\everycr\\message{\\the\\toks2\\the\\everycr}\\errhelp\\everydisplay\\message{[\\the\\errhelp]}\\end",
        b"tt []\n",
        0,
    ),
    (
        b"\\message{\\meaning\\everypar,\\meaning\\everymath,\\meaning\\everydisplay,\\meaning\\everyhbox,\\meaning\\everyvbox,\\meaning\\everyjob,\\meaning\\everycr,\\meaning\\errhelp,\\meaning\\toks,\\meaning\\toksdef}\\end",
        b"\\everypar,\\everymath,\\everydisplay,\\everyhbox,\\everyvbox,\\everyjob,\\everycr,\\errhelp,\\toks,\\toksdef\n",
        0,
    ),
    (
        b"\\let\\e=\\everycr\\e={x}\\message{\\the\\e,\\the\\everycr,\\meaning\\e}\\show\\e\\end",
        b"x,x,\\everycr\n> \\e=\\everycr.\nl.2\n",
        1,
    ),
    (
        b"\\everypar={a}{\\everypar={b}\\global\\everymath={m}\\message{\\the\\everypar}}\\message{\\the\\everypar\\the\\everymath}\\end",
        b"b am\n",
        0,
    ),
];

#[test]
fn parameters_hold_lists(rt: HostRuntime) {
    rows_hold(&rt, rt.alloc(), &PARAMETERS);
}

/// Groups, `\global`, `\globaldefs`, prefixes and `\afterassignment`.
const GROUPED: [Row; 8] = [
    (
        b"\\toks0={a}{\\toks0={b}\\message{\\the\\toks0}\\global\\toks1={c}\\toks0={d}}\\message{\\the\\toks0\\the\\toks1}\\end",
        b"b ac\n",
        0,
    ),
    (
        b"\\toks0={a}\\begingroup\\toks0=\\toks1 \\toks0={b}{\\global\\toks0={c}\\toks0={d}\\message{\\the\\toks0}}\\message{\\the\\toks0}\\endgroup\\message{\\the\\toks0}\\end",
        b"d c c\n",
        0,
    ),
    (
        b"{\\toks0={a}\\toks1=\\toks0 {\\toks0={b}\\global\\toks1=\\toks0 }\\message{\\the\\toks0\\the\\toks1}}\\message{[\\the\\toks0\\the\\toks1]}\\end",
        b"ab [b]\n",
        0,
    ),
    (
        b"\\globaldefs=1 {\\toks0={a}\\everypar{b}\\toksdef\\t=4 }\\message{\\the\\toks0\\the\\everypar\\meaning\\t}\\globaldefs=-1 {\\global\\toks0={c}\\global\\everypar=\\toks0 \\global\\toksdef\\s=5 }\\message{\\the\\toks0\\the\\everypar,\\meaning\\s}\\end",
        b"ab\\toks4 ab,undefined\n",
        0,
    ),
    (
        b"\\toks0={\\message{out}}{\\toks0={\\message{in}}\\aftergroup\\the\\aftergroup\\toks\\aftergroup0\\aftergroup\\relax}\\message{x}\\end",
        b"out x\n",
        0,
    ),
    (
        b"\\def\\x{\\message{x\\the\\toks0}}\\afterassignment\\x\\toks0={a}\\afterassignment\\x\\toks0=\\toks1 \\afterassignment\\x\\everypar={}\\afterassignment\\x\\toksdef\\t=3 \\afterassignment\\x\\t\\toks0\\end",
        b"xa x x x x\n",
        0,
    ),
    (
        b"\\long\\toks0={a}\\outer\\global\\everypar={b}\\long\\toksdef\\t=0 \\outer\\t={c}\\message{\\the\\toks0\\the\\everypar}\\end",
        b"! You can't use `\\long' or `\\outer' with `\\toks'.\nl.2\n! You can't use `\\long' or `\\outer' with `\\everypar'.\nl.2\n! You can't use `\\long' or `\\outer' with `\\toksdef'.\nl.2\n! You can't use `\\long' or `\\outer' with `\\toks0'.\nl.2\ncb\n",
        1,
    ),
    (
        b"\\global\\uppercase{\\message{a}}\\global\\showthe\\toks0 \\long\\global\\lowercase{\\message{B}}\\end",
        b"! You can't use a prefix with `\\uppercase'.\nl.2\nA\n! You can't use a prefix with `\\showthe'.\nl.2\n> .\nl.2\n! You can't use a prefix with `\\lowercase'.\nl.2\nb\n",
        1,
    ),
];

#[test]
fn lists_are_restored(rt: HostRuntime) {
    rows_hold(&rt, rt.alloc(), &GROUPED);
}

/// What may stand before a list, and what it begins with.
const SOUGHT: [Row; 11] = [
    (
        b"\\toks0=  \\relax \\relax {a}\\toks1 \\relax{b}\\toks2=\\relax\\toks0 \\message{\\the\\toks0\\the\\toks1\\the\\toks2}\\end",
        b"aba\n",
        0,
    ),
    (
        b"\\def\\x{ \\relax\\y}\\def\\y{ {a b}}\\toks0=\\x\\def\\y{\\toks0 }\\toks1=\\x\\def\\y{\\everypar}\\toks2\\x\\message{\\the\\toks0,\\the\\toks1,[\\the\\toks2]}\\end",
        b"a b,a b,[]\n",
        0,
    ),
    (
        b"\\let\\bgroup={\\let\\egroup=}\\toks0=\\bgroup a}\\message{\\the\\toks0}\\toks0=\\bgroup b\\egroup c{d}\\bgroup}\\message{\\the\\toks0}\\end",
        b"a b\\egroup c{d}\\bgroup \n",
        0,
    ),
    (
        b"\\let\\r=\\relax\\def\\:{\\let\\s= }\\: \\toks0=\\r\\s{a}\\toks1=\\s\\s\\toks0\\message{\\the\\toks0\\the\\toks1}\\end",
        b"aa\n",
        0,
    ),
    (
        b"\\toks1={a}\\toks0=\\the\\toks1 }\\message{\\the\\toks0}\\end",
        b"! Missing { inserted.\nl.2\na\n",
        1,
    ),
    (
        b"\\toks1={{a}}\\toks0=\\the\\toks1 \\message{\\the\\toks0}\\toks1={\\toks2}\\toks2={c}\\toks0\\the\\toks1 \\message{\\the\\toks0}\\end",
        b"a c\n",
        0,
    ),
    (
        b"\\toks0=\\csname relax\\endcsname{a}\\toks1=\\csname toks\\endcsname0 \\toks2\\csname everypar\\endcsname\\message{\\the\\toks0\\the\\toks1\\the\\toks2}\\end",
        b"aa\n",
        0,
    ),
    (
        b"\\toks0=\\noexpand\\x{a}\\message{\\the\\toks0}\\def\\x{{b}}\\toks0=\\noexpand\\x{c}\\message{\\the\\toks0}\\end",
        b"a c\n",
        0,
    ),
    (b"\\toks0=\\noexpand\\toks1 {}\\message{b}\\end", b"b\n", 0),
    (
        b"\\toks0=\\par}\\message{\\the\\toks0}\\end",
        b"! Missing { inserted.\nl.2\n\\par \n",
        1,
    ),
    (
        b"\\toks0 \\relax={x}\\message{\\the\\toks0}\\end",
        b"! Missing { inserted.\nl.2\nRunaway text?\n={x}\\message {\\the \\toks 0}\\end \n! File ended while scanning text of \\toks.\nl.0\n! Emergency stop.\n*** (job aborted, no legal \\end found)\n",
        2,
    ),
];

#[test]
fn lists_are_sought(rt: HostRuntime) {
    rows_hold(&rt, rt.alloc(), &SOUGHT);
}

/// Lists that `\the` puts in front.
const PUT: [Row; 17] = [
    (
        b"\\toks0={\\message{a}}\\the\\toks0 \\the\\toks0\\the\\toks1\\message{b}\\end",
        b"a a b\n",
        0,
    ),
    (
        b"\\toks0={\\toks0={\\message{new}}\\message{old}}\\the\\toks0 \\the\\toks0\\end",
        b"old new\n",
        0,
    ),
    (
        b"\\toks0={\\toks0={}\\message{\\the\\toks0 old}}\\the\\toks0 \\message{[\\the\\toks0]}\\end",
        b"old []\n",
        0,
    ),
    (
        b"\\toks0={\\b c}\\expandafter\\def\\expandafter\\a\\expandafter{\\the\\toks0}\\message{\\meaning\\a}\\end",
        b"macro:->\\b c\n",
        0,
    ),
    (
        b"\\toks0={\\b}\\def\\b{c}\\message{\\the\\toks0,\\b}\\errmessage{\\the\\toks0}\\end",
        b"\\b ,c\n! \\b .\nl.2\n",
        1,
    ),
    (
        b"\\toks0={a\\c}\\def\\c{b}\\expandafter\\def\\csname\\the\\toks0\\endcsname{x}\\message{\\ab,\\csname\\the\\toks0\\endcsname}\\end",
        b"x,x\n",
        0,
    ),
    (
        b"\\toks0={12}\\toksdef\\t=0 \\count1=\\the\\toks0 \\message{\\the\\count1}\\count1=\\the\\t\\the\\t\\message{\\number\\count1,\\number\\the\\toks0,\\romannumeral\\the\\t,\\number-\\the\\t\\t}\\end",
        b"12 1212,12,xii,-12\\t \n",
        0,
    ),
    (
        b"\\toks0={\\count1}\\count1=7 \\message{\\the\\the\\toks0,\\number-\\the\\toks0,\\the\\dimen\\the\\toks0}\\the\\toks0=\\the\\count\\number1 5 \\message{\\the\\count1}\\end",
        b"7,-7,0.0pt 0\n",
        0,
    ),
    (
        b"\\toks0={1p}\\dimen1=\\the\\toks0 t\\toks1={pl}\\skip1=\\the\\dimen1 \\the\\toks1us \\the\\toks0 t\\message{\\the\\dimen1,\\the\\skip1}\\end",
        b"1.0pt,1.0pt plus 1.0pt\n",
        0,
    ),
    (
        b"\\toks0={by}\\count1=2 \\advance\\count1\\the\\toks0 3 \\message{\\the\\count1}\\toks0={b}\\advance\\count1\\the\\toks0y4 \\message{\\the\\count1}\\end",
        b"5 9\n",
        0,
    ),
    (
        b"\\toks0={#1}\\def\\a{\\the\\toks0}\\message{\\a}\\toks1={\\def\\b}\\the\\toks1{x}\\message{\\b}\\toks1={{y}}\\def\\b\\the\\toks1{z}\\message{\\meaning\\b}\\end",
        b"##1 x macro:\\the \\toks 1->z\n",
        0,
    ),
    (
        b"\\def\\a#1{[#1]}\\toks0={\\a}\\message{\\expandafter\\a\\the\\toks0}\\toks1={x y}\\message{\\expandafter\\a\\the\\toks1}\\def\\c#1.{(#1\\relax}\\toks1={x.}\\message{\\expandafter\\c\\the\\toks1}\\end",
        b"[[]] [x] y (x\\relax \n",
        0,
    ),
    (
        b"\\toks0={\\message}\\the\\toks0{a}\\let\\the=\\the\\toks1={\\the}\\message{\\the\\toks1}\\message{\\string\\the,\\meaning\\the}\\end",
        b"a \\the  \\the,\\the\n",
        0,
    ),
    (
        b"\\toks0={b}\\def\\a{\\message{a}\\the\\toks1\\message{c}}\\toks1={\\message{\\the\\toks0}}\\a\\toks0={d}\\a\\end",
        b"a b c a d c\n",
        0,
    ),
    (
        b"\\toks0={\\par a}\\long\\def\\a#1{\\message{#1}}\\expandafter\\a\\expandafter{\\the\\toks0}\\def\\a#1{\\message{#1}}\\a{\\the\\toks0}\\expandafter\\a\\expandafter{\\the\\toks0}\\end",
        b"\\par a \\par a\nRunaway argument?\n{\n! Paragraph ended before \\a was complete.\nl.2\n{\\par}\n{the letter a}\n! Too many }'s.\nl.2\n",
        1,
    ),
    (
        b"\\toks0={\\ignorespaces}\\the\\toks0   \\message{x}\\toks0={\\afterassignment\\message\\count1=}\\the\\toks0 3 {y}\\end",
        b"x y\n",
        0,
    ),
    (
        b"\\toks0={a}\\edef\\a{\\the\\toks0}\\toks0={b}\\message{\\a\\the\\toks0}\\toks0={\\outer\\def}\\the\\toks0 \\a{}\\message{c\\meaning\\a}\\toks0={\\meaning}\\message{\\the\\toks0}\\end",
        b"ab c\\outer macro:-> \\meaning \n",
        0,
    ),
];

#[test]
fn lists_are_put_in_front(rt: HostRuntime) {
    rows_hold(&rt, rt.alloc(), &PUT);
}

/// Lists that enter an expanded text, as they stand.
const ENTERED: [Row; 18] = [
    (
        b"\\toks1={\\b}\\def\\b{c}\\edef\\a{\\the\\toks1}\\message{\\meaning\\a}\\end",
        b"macro:->\\b \n",
        0,
    ),
    (
        b"\\toks0={\\b{x}\\undefined}\\edef\\a{[\\the\\toks0 \\the\\toks0]\\the\\toks1}\\message{\\meaning\\a}\\xdef\\a{\\the\\toks1}\\message{\\meaning\\a}\\end",
        b"macro:->[\\b {x}\\undefined \\b {x}\\undefined ] macro:->\n",
        0,
    ),
    (
        b"\\toks0={12}\\edef\\a{\\number\\the\\toks0 x}\\message{\\meaning\\a}\\end",
        b"macro:->12x\n",
        0,
    ),
    (
        b"\\toks0={\\b}\\def\\b{7}\\edef\\a{\\number\\the\\toks0 \\the\\toks0}\\message{\\meaning\\a}\\edef\\a{\\number\\the\\toks0\\relax\\the\\toks0}\\message{\\meaning\\a}\\end",
        b"macro:->77 macro:->7\\relax \\b \n",
        0,
    ),
    (
        b"\\toks0={\\b\\b}\\def\\b{c}\\edef\\a{\\expandafter\\noexpand\\the\\toks0}\\message{\\meaning\\a}\\edef\\a{\\expandafter\\the\\toks0}\\message{\\meaning\\a}\\end",
        b"macro:->\\b c macro:->\\b \\b \n",
        0,
    ),
    (
        b"\\toks0={\\b\\b}\\def\\b{c}\\edef\\a{\\csname\\the\\toks0\\endcsname}\\message{\\meaning\\a}\\edef\\a{\\expandafter\\string\\the\\toks0}\\message{\\meaning\\a}\\end",
        b"macro:->\\cc  macro:->\\bc\n",
        0,
    ),
    (
        b"\\toks0={\\b}\\def\\b{c}\\def\\d{\\the\\toks0}\\edef\\a{\\d\\b\\noexpand\\the\\toks0}\\message{\\meaning\\a}\\end",
        b"macro:->\\b c\\the \\toks 0\n",
        0,
    ),
    (
        b"\\toks0={ab}\\edef\\a{\\the\\expandafter\\toks\\number0 \\the\\toks\\the\\count1}\\message{\\meaning\\a}\\end",
        b"macro:->abab\n",
        0,
    ),
    (
        b"\\toks0={\\noexpand\\b}\\def\\b{c}\\edef\\a{\\the\\toks0}\\message{\\meaning\\a}\\edef\\a{\\a}\\message{\\meaning\\a}\\end",
        b"macro:->\\noexpand \\b  macro:->\\b \n",
        0,
    ),
    (
        b"\\toks0={#}\\message{\\the\\toks0}\\edef\\a{\\the\\toks0}\\message{\\meaning\\a}\\edef\\a#1{\\the\\toks0 1#1}\\message{\\meaning\\a,\\a x}\\end",
        b"## macro:->## macro:#1->##1#1,##1x\n",
        0,
    ),
    (
        b"\\toks0={1}\\edef\\a#1{#\\the\\toks0,\\the\\toks0}\\message{\\meaning\\a}\\toks0={#}\\edef\\a{#\\the\\toks0}\\message{\\meaning\\a}\\end",
        b"macro:#1->#1,1 macro:->##\n",
        0,
    ),
    (
        b"\\toks0={##}\\message{\\the\\toks0}\\toks1=\\expandafter{\\the\\toks0}\\message{\\the\\toks1}\\edef\\a#1{\\the\\toks0 1}\\message{\\meaning\\a,\\a x}\\end",
        b"#### #### macro:#1->####1,####1\n",
        0,
    ),
    (
        b"\\toks0={#1}\\expandafter\\def\\expandafter\\a\\expandafter#\\expandafter1\\expandafter{\\the\\toks0}\\message{\\meaning\\a}\\expandafter\\def\\expandafter\\a\\expandafter{\\the\\toks0}\\message{\\meaning\\a}\\end",
        b"macro:#1->#1\n! Illegal parameter number in definition of \\a.\nl.2\nmacro:->##1\n",
        1,
    ),
    (
        b"\\toks0={}\\edef\\a{\\the\\toks0}\\message{\\meaning\\a}\\edef\\a{x\\the\\toks0\\the\\toks1 y}\\message{\\meaning\\a}\\end",
        b"macro:-> macro:->xy\n",
        0,
    ),
    (
        b"\\everypar={\\b}\\edef\\a{\\the\\everypar\\the\\everypar}\\message{\\meaning\\a}\\toksdef\\t=9 \\t\\everypar\\edef\\a{\\the\\t\\t}\\message{\\meaning\\a}\\end",
        b"macro:->\\b \\b  macro:->\\b \\t \n",
        0,
    ),
    (
        b"\\toks0={\\par\\outer{\\c}}\\edef\\a{\\the\\toks0}\\message{\\meaning\\a}\\message{\\the\\toks0}\\end",
        b"macro:->\\par \\outer {\\c } \\par \\outer {\\c }\n",
        0,
    ),
    (
        b"\\toks0={a b }\\edef\\a{\\the\\toks0  c}\\message{\\meaning\\a}\\catcode`\\~=13 \\toks0={~}\\def~{t}\\edef\\a{~\\the\\toks0}\\message{\\meaning\\a}\\end",
        b"macro:->a b c macro:->t~\n",
        0,
    ),
    (
        b"\\toks0={\\b}\\def\\b{\\c}\\def\\c{d}\\edef\\a{\\b\\the\\toks0\\expandafter\\noexpand\\b}\\message{\\meaning\\a}\\errmessage{\\the\\toks0\\b}\\end",
        b"macro:->d\\b d\n! \\b d.\nl.2\n",
        1,
    ),
];

#[test]
fn lists_enter_expanded_texts(rt: HostRuntime) {
    rows_hold(&rt, rt.alloc(), &ENTERED);
}

/// Reports of lists.
const REPORTS: [Row; 15] = [
    (
        b"\\toks0 x}\\message{\\the\\toks0}\\end",
        b"! Missing { inserted.\nl.2\nx\n",
        1,
    ),
    (
        b"\\toks0=\\message{a}}\\message{[\\the\\toks0]}\\end",
        b"! Missing { inserted.\nl.2\n[\\message {a}]\n",
        1,
    ),
    (
        b"\\toks256={a}\\toks-1={b}\\message{\\the\\toks0,\\the\\toks256,\\the\\toks-1}\\toks0=\\toks999 \\toksdef\\t=256 \\message{\\meaning\\t}\\end",
        b"! Bad register code (256).\nl.2\n! Bad register code (-1).\nl.2\n! Bad register code (256).\nl.2\n! Bad register code (-1).\nl.2\nb,b,b\n! Bad register code (999).\nl.2\n! Bad register code (256).\nl.2\n\\toks0\n",
        1,
    ),
    (
        b"\\message{\\the\\toksdef,\\the x,\\the\\message,\\the\\uppercase}\\end",
        b"! You can't use `\\toksdef' after \\the.\nl.2\n! You can't use `the letter x' after \\the.\nl.2\n! You can't use `\\message' after \\the.\nl.2\n! You can't use `\\uppercase' after \\the.\nl.2\n0,0,0,0\n",
        1,
    ),
    (
        b"\\advance\\toks\\message{a}\\multiply\\everypar\\message{b}\\toksdef\\t=3 \\divide\\t\\message{c}\\end",
        b"! You can't use `\\toks' after \\advance.\nl.2\na\n! You can't use `\\everypar' after \\multiply.\nl.2\nb\n! You can't use `\\toks3' after \\divide.\nl.2\nc\n",
        1,
    ),
    (
        b"\\count1=\\toks0={a}\\message{\\the\\count1,\\the\\toks0}\\count1=-\\everypar={b}\\message{\\the\\count1,\\the\\everypar}\\toksdef\\t=2 \\count1=\\t={c}\\message{\\the\\count1,\\the\\t}\\end",
        b"! Missing number, treated as zero.\nl.2\n0,a\n! Missing number, treated as zero.\nl.2\n0,b\n! Missing number, treated as zero.\nl.2\n0,c\n",
        1,
    ),
    (
        b"\\dimen1=\\toks0={a}\\message{\\the\\dimen1,\\the\\toks0}\\dimen1=2.5\\toks0={b}\\message{\\the\\dimen1,\\the\\toks0}\\skip1=-\\toks0={c}\\message{\\the\\skip1,\\the\\toks0}\\muskip1=\\toks0={d}\\message{\\the\\muskip1,\\the\\toks0}\\end",
        b"! Missing number, treated as zero.\nl.2\n0.0pt,a\n! Missing number, treated as zero.\nl.2\n0.0pt,b\n! Missing number, treated as zero.\nl.2\n0.0pt,c\n! Missing number, treated as zero.\nl.2\n! Incompatible glue units.\nl.2\n0.0mu,d\n",
        1,
    ),
    (
        b"\\skip1=1pt plus\\everypar={a}\\message{\\the\\skip1,\\the\\everypar}\\skip1=1pt minus 2\\everypar={b}\\message{\\the\\skip1,\\the\\everypar}\\end",
        b"! Missing number, treated as zero.\nl.2\n1.0pt,a\n! Missing number, treated as zero.\nl.2\n1.0pt,b\n",
        1,
    ),
    (
        b"\\count\\toks0={a}\\message{\\the\\count0,\\the\\toks0}\\end",
        b"! Missing number, treated as zero.\nl.2\n! Missing number, treated as zero.\nl.2\n0,a\n",
        1,
    ),
    (
        b"\\message{\\number\\toks 7 ,\\number\\everypar\\count0 }\\end",
        b"! Missing number, treated as zero.\nl.2\n! Missing number, treated as zero.\nl.2\n0\\toks 7 ,0\\everypar \\count 0 \n",
        1,
    ),
    (
        b"\\toks1={a}\\toks\\toks1 \\message{[\\the\\toks0]}\\toks\\everypar\\message{[\\the\\toks0]}\\end",
        b"! Missing number, treated as zero.\nl.2\n[a]\n! Missing number, treated as zero.\nl.2\n[]\n",
        1,
    ),
    (
        b"\\toksdef\\t=\\toks1={a}\\message{\\meaning\\t,\\the\\t,\\the\\toks1}\\toksdef a\\end",
        b"! Missing number, treated as zero.\nl.2\n\\toks0,,a\n! Missing control sequence inserted.\nl.2\n! Missing number, treated as zero.\nl.2\n{the letter a}\n",
        1,
    ),
    (
        b"\\let\\r=\\relax\\uppercase x}\\lowercase\\r\\r\\message{y}}\\end",
        b"! Missing { inserted.\nl.2\n{the letter X}\n! Missing { inserted.\nl.2\ny\n",
        1,
    ),
    (
        b"\\uppercase\\toks{a}\\end",
        b"! Missing { inserted.\nl.2\nRunaway text?\n\\toks {a}\\end \n! File ended while scanning text of \\uppercase.\nl.0\n! Missing number, treated as zero.\nl.0\n",
        1,
    ),
    (
        b"\\edef\\a{\\the\\foo}\\edef\\b{\\the\\relax}\\message{\\meaning\\a,\\meaning\\b}\\end",
        b"! Undefined control sequence.\nl.2\n! You can't use `end-group character }' after \\the.\nl.2\n! Undefined control sequence.\nl.2\n! You can't use `\\relax' after \\the.\nl.2\nRunaway definition?\n->0\\edef {0}\\message {undefined,undefined}\\end \n! File ended while scanning definition of \\a.\nl.0\n! Emergency stop.\n*** (job aborted, no legal \\end found)\n",
        2,
    ),
];

#[test]
fn lists_are_reported(rt: HostRuntime) {
    rows_hold(&rt, rt.alloc(), &REPORTS);
}

/// Lists that a file's end or an `\outer` name cuts off, and those that a paragraph doesn't end.
const CUT: [Row; 13] = [
    (
        b"\\toks0={ab{c\\end",
        b"Runaway text?\nab{c\\end \n! File ended while scanning text of \\toks.\nl.0\n! Emergency stop.\n*** (job aborted, no legal \\end found)\n",
        2,
    ),
    (
        b"\\everypar={ab",
        b"Runaway text?\nab \n! File ended while scanning text of \\everypar.\nl.0\n! Emergency stop.\n*** (job aborted, no legal \\end found)\n",
        2,
    ),
    (
        b"\\toksdef\\t=1 \\t={ab",
        b"Runaway text?\nab \n! File ended while scanning text of \\t.\nl.0\n! Emergency stop.\n*** (job aborted, no legal \\end found)\n",
        2,
    ),
    (
        b"\\let\\T=\\toks\\T1 {ab",
        b"Runaway text?\nab \n! File ended while scanning text of \\T.\nl.0\n! Emergency stop.\n*** (job aborted, no legal \\end found)\n",
        2,
    ),
    (
        b"\\uppercase{\\message{ab}",
        b"Runaway text?\n\\message {ab} \n! File ended while scanning text of \\uppercase.\nl.0\nAB\n{blank space  }\n! Emergency stop.\n*** (job aborted, no legal \\end found)\n",
        2,
    ),
    (
        b"\\lowercase{",
        b"Runaway text?\n \n! File ended while scanning text of \\lowercase.\nl.0\n{blank space  }\n! Emergency stop.\n*** (job aborted, no legal \\end found)\n",
        2,
    ),
    (
        b"\\outer\\def\\o{x}\\toks0={a\\o b}\\message{\\the\\toks0}\\end",
        b"Runaway text?\na\n! Forbidden control sequence found while scanning text of \\toks.\nl.2\n{the letter x}\n{the letter b}\n! Too many }'s.\nl.2\na \n",
        1,
    ),
    (
        b"\\outer\\def\\o{{x}}\\toks0=\\o\\message{\\the\\toks0}\\uppercase{\\o\\message{y}}\\end",
        b"x\nRunaway text?\n! Forbidden control sequence found while scanning text of \\uppercase.\nl.2\n{blank space  }\n{the letter x}\ny\n! Too many }'s.\nl.2\n",
        1,
    ),
    (
        b"\\outer\\def\\o{x}\\toks0={a\\o\n\\o}\\message{\\the\\toks0}\\end",
        b"Runaway text?\na\n! Forbidden control sequence found while scanning text of \\toks.\nl.2\n{the letter x}\n{the letter x}\n! Too many }'s.\nl.3\na \n",
        1,
    ),
    (
        b"\\toks0={a\\par b}\\message{\\the\\toks0}\\uppercase{\\message{a\\par b}}\\lowercase{\\par}\\end",
        b"a\\par b A\\par B\n{\\par}\n",
        0,
    ),
    (
        b"\\toks0={abcdefghijklmnopqrstuvwxyzabcdefghijklmnopqrstuvwxyz01234567890123456789",
        b"Runaway text?\nabcdefghijklmnopqrstuvwxyzabcdefghijklmnopqrstuvwxyz0123456789\\ETC.\n! File ended while scanning text of \\toks.\nl.0\n! Emergency stop.\n*** (job aborted, no legal \\end found)\n",
        2,
    ),
    (
        b"\\toks0={\\a##{b",
        b"Runaway text?\n\\a ####{b \n! File ended while scanning text of \\toks.\nl.0\n! Emergency stop.\n*** (job aborted, no legal \\end found)\n",
        2,
    ),
    (
        b"\\outer\\def\\o{x}\\toks0={y}\\edef\\a{\\the\\toks0\\o}\\message{\\meaning\\a}\\end",
        b"Runaway definition?\n->\n! Forbidden control sequence found while scanning definition of \\a.\nl.2\n{the letter x}\n! Too many }'s.\nl.2\nmacro:->y\n",
        1,
    ),
];

#[test]
fn lists_are_cut_off(rt: HostRuntime) {
    rows_hold(&rt, rt.alloc(), &CUT);
}

/// What `\showthe` writes.
const SHOWN: [Row; 12] = [
    (
        b"\\toks0={xy}\\showthe\\toks0 \\showthe\\toks1 \\end",
        b"> xy.\nl.2\n> .\nl.2\n",
        1,
    ),
    (
        b"\\count1=5 \\dimen1=2.5pt \\skip1=1pt plus 2fil minus 3sp\\muskip1=4mu plus -1mu\\showthe\\count1 \\showthe\\dimen1 \\showthe\\skip1 \\showthe\\muskip1 \\showthe-\\end",
        b"> 5.\nl.2\n> 2.5pt.\nl.2\n> 1.0pt plus 2.0fil minus 0.00005pt.\nl.2\n> 4.0mu plus -1.0mu.\nl.2\n! You can't use `the character -' after \\the.\nl.2\n> 0.\nl.2\n",
        1,
    ),
    (
        b"\\chardef\\c=65 \\mathchardef\\m=`\\a \\countdef\\n=3 \\dimendef\\d=4 \\skipdef\\s=5 \\muskipdef\\u=6 \\toksdef\\t=7 \\t{x}\\showthe\\c\\showthe\\m\\showthe\\n\\showthe\\d\\showthe\\s\\showthe\\u\\showthe\\t\\end",
        b"> 65.\nl.2\n> 97.\nl.2\n> 0.\nl.2\n> 0.0pt.\nl.2\n> 0.0pt.\nl.2\n> 0.0mu.\nl.2\n> x.\nl.2\n",
        1,
    ),
    (
        b"\\showthe\\catcode65 \\showthe\\lccode`\\A\\showthe\\uccode`\\a\\showthe\\sfcode`\\A\\showthe\\mathcode`\\a\\showthe\\delcode`\\(\\showthe\\endlinechar\\showthe\\hsize\\showthe\\parskip\\showthe\\thinmuskip\\showthe\\everypar\\showthe\\errhelp\\end",
        b"> 11.\nl.2\n> 97.\nl.2\n> 65.\nl.2\n> 999.\nl.2\n> 29025.\nl.2\n> -1.\nl.2\n> 13.\nl.2\n> 0.0pt.\nl.2\n> 0.0pt.\nl.2\n> 0.0mu.\nl.2\n> .\nl.2\n> .\nl.2\n",
        1,
    ),
    (
        b"\\everypar={\\a##\\par{b c}\\^}\\showthe\\everypar\\toks0={#}\\showthe\\toks0 \\end",
        b"> \\a ####\\par {b c}\\^.\nl.2\n> ##.\nl.2\n",
        1,
    ),
    (
        b"\\showthe\\relax\\showthe x\\showthe{\\showthe\\message\\end",
        b"! You can't use `\\relax' after \\the.\nl.2\n> 0.\nl.2\n! You can't use `the letter x' after \\the.\nl.2\n> 0.\nl.2\n! You can't use `begin-group character {' after \\the.\nl.2\n> 0.\nl.2\n! You can't use `\\message' after \\the.\nl.2\n> 0.\nl.2\n",
        1,
    ),
    (
        b"\\showthe\\foo\\toks0\\message{a}\\showthe\\toks256 \\end",
        b"! Undefined control sequence.\nl.2\n> .\nl.2\na\n! Bad register code (256).\nl.2\n> .\nl.2\n",
        1,
    ),
    (
        b"\\def\\x{\\toks0}\\toks0={a}\\message{b}\\showthe\\x\\showthe\\the\\toks0 \\showthe\\expandafter\\toks\\number0 \\end",
        b"b\n> a.\nl.2\n! You can't use `the letter a' after \\the.\nl.2\n> 0.\nl.2\n> a.\nl.2\n",
        1,
    ),
    (
        b"\\let\\s=\\showthe\\s\\tolerance\\message{\\meaning\\showthe,\\meaning\\uppercase,\\meaning\\lowercase}\\show\\showthe\\end",
        b"> 10000.\nl.2\n\\showthe,\\uppercase,\\lowercase\n> \\showthe=\\showthe.\nl.2\n",
        1,
    ),
    (
        b"\\escapechar=-1 \\toks0={\\a\\bc}\\showthe\\toks0 \\escapechar=`\\! \\showthe\\toks0 \\showthe\\relax\\end",
        b"> a bc .\nl.2\n> !a !bc .\nl.2\n! You can't use `!relax' after !the.\nl.2\n> 0.\nl.2\n",
        1,
    ),
    (
        b"\\newlinechar=`\\; \\toks0={a;b}\\showthe\\toks0 \\message{c}\\end",
        b"> a\nb.\nl.2\nc\n",
        1,
    ),
    (
        b"{\\toks0={a}\\showthe\\toks0}\\showthe\\toks0 \\end",
        b"> a.\nl.2\n> .\nl.2\n",
        1,
    ),
];

#[test]
fn values_are_shown(rt: HostRuntime) {
    rows_hold(&rt, rt.alloc(), &SHOWN);
}

/// Whether a value may be shown a hundred times, which are no reports.
fn shows_on(alloc: Global) -> Result<bool, AllocError> {
    let shown = repeated(alloc, b"\\b", 100, b"\\end\n")?;
    let text = repeated(alloc, b"\\def\\b{\\showthe\\toks0 }", 1, shown.as_slice())?;
    let written = repeated(alloc, b"> .\nl.2\n", 100, b"")?;
    Ok(job(alloc, text.as_slice(), written.as_slice(), 1))
}

#[test]
fn values_that_are_shown_are_no_reports(rt: HostRuntime) {
    assert!(rt; matches!(shows_on(rt.alloc()), Ok(true)));
}

/// `\uppercase` and `\lowercase`.
const CHANGED: [Row; 22] = [
    (
        b"\\uppercase{\\message{abc12Z}}\\lowercase{\\message{ABC12z}}\\end",
        b"ABC12Z abc12z\n",
        0,
    ),
    (
        b"\\def\\a{b}\\uppercase{\\message{a\\a\\b}}\\uppercase\\expandafter{\\expandafter\\message\\expandafter{\\a}}\\uppercase{\\edef\\c{x\\a}}\\message{\\meaning\\c}\\end",
        b"! Undefined control sequence.\nl.2\nAb B macro:->Xb\n",
        1,
    ),
    (
        b"\\uppercase{\\message{a{b{c}}d}\\message{\\lowercase{eF}}}\\lowercase{\\uppercase{\\message{aB}}}\\uppercase{}\\lowercase{\\uppercase{}}\\end",
        b"A{B{C}}D \\lowercase {EF} AB\n",
        0,
    ),
    (
        b"\\uccode`\\a=0 \\uccode`\\1=`\\x \\uccode`\\x=`\\1 \\uppercase{\\message{ab1x2}}\\lccode`\\1=`\\1 \\lccode`\\Q=0 \\lowercase{\\message{PQ1}}\\end",
        b"aBx12 pQ1\n",
        0,
    ),
    (
        b"\\catcode`\\~=13 \\catcode`\\!=13 \\def~{t}\\def!{e}\\uccode`\\~=`\\! \\uppercase{\\message{~!}}\\lccode`\\!=`\\~ \\lowercase{\\message{~!}}\\uppercase{\\def~{u}}\\message{~!}\\end",
        b"ee tt tU\n",
        0,
    ),
    (
        b"\\catcode`\\~=13 \\begingroup\\lccode`\\~=`\\: \\lowercase{\\endgroup\\def~}{x}\\catcode`\\:=13 \\message{:\\meaning:}\\end",
        b"xmacro:->x\n",
        0,
    ),
    (
        b"\\lccode`\\5=`\\p \\lccode`\\6=`\\T \\lowercase{\\dimen1=3 56\\count1=4 }\\message{\\the\\dimen1,\\the\\count1}\\lccode`\\B=`\\b\\lccode`\\7=`\\b \\lccode`\\8=`\\Y \\lowercase{\\advance\\count1 783 }\\message{\\the\\count1}\\end",
        b"3.0pt,4 7\n",
        0,
    ),
    (
        b"\\lccode`\\x=32 \\lowercase{\\message{axb}\\count1=5x}\\message{\\the\\count1}\\end",
        b"a b\n{the letter  }\n5\n",
        0,
    ),
    (
        b"\\lccode32=`\\- \\lowercase{\\message{a b}\\count1= 5 6 \\message{\\the\\count1}}\\end",
        b"a-b\n{the character 6}\n{blank space -}\n5\n",
        0,
    ),
    (
        b"\\uccode`\\{=`\\[ \\uccode`\\}=`\\] \\uppercase{\\message{{a}}\\toks0={b{c}}\\message{\\the\\toks0}\\showthe\\toks0 }\\end",
        b"[A] B[C]\n> B[C].\nl.2\n",
        1,
    ),
    (
        b"\\uccode`\\#=`\\! \\uppercase{\\def\\a#1{b#1c}}\\message{\\meaning\\a,\\a x}\\uppercase{\\toks0={#}}\\message{\\the\\toks0}\\end",
        b"macro:!1->B!1C,BxC !!\n",
        0,
    ),
    (
        b"\\def\\a#1{\\uppercase{\\message{#1}}}\\a{xy}\\let\\u=\\uppercase\\let\\l=\\lowercase\\u{\\message{a}}\\l\\relax {\\message{B}}\\end",
        b"XY A b\n",
        0,
    ),
    (
        b"\\uppercase\\expandafter{\\expandafter\\def\\expandafter\\a\\expandafter{\\romannumeral1987}}\\message{\\a}\\end",
        b"MCMLXXXVII\n",
        0,
    ),
    (
        b"\\let\\bgroup={\\uppercase\\bgroup\\message{a}}\\def\\x{{\\message{b}}}\\uppercase\\x\\lowercase \\relax\\x\\end",
        b"A B b\n",
        0,
    ),
    (
        b"\\uccode`\\a=255 \\uccode`\\b=1 \\uppercase{\\message{ab}}\\edef\\a{\\uppercase{x}}\\message{\\meaning\\a}\\end",
        b"^^ff^^A macro:->\\uppercase {x}\n",
        0,
    ),
    (
        b"\\uppercase{\\catcode`z=11 \\message{\\the\\catcode`\\z,\\number`a,\\number`\\a}}\\message{\\the\\catcode`\\Z}\\end",
        b"11,65,97 11\n",
        0,
    ),
    (
        b"\\uppercase{\\par\\message{a\n\nb}\\^^61}\\message{c}\\end",
        b"{\\par}\nA \\par B\n! Undefined control sequence.\nl.4\nc\n",
        1,
    ),
    (
        b"{\\uccode`\\a=`\\x \\uppercase{\\message{a}}}\\uppercase{\\message{a}}\\toks0={ab}\\uppercase\\expandafter{\\expandafter\\toks\\expandafter0\\expandafter{\\the\\toks0}}\\message{\\the\\toks0}\\end",
        b"x A AB\n",
        0,
    ),
    (
        b"\\def\\s{ }\\edef\\a{\\dimen1=3\\s\\s t}\\lccode32=`\\p \\lowercase\\expandafter{\\a\\relax}\\message{\\the\\dimen1}\\end",
        b"! Illegal unit of measure (pt inserted).\nl.2\n{the letter t}\n3.0pt\n",
        1,
    ),
    (
        b"\\countdef\\c=1 \\def\\s{ }\\edef\\a{\\advance\\c\\s y3}\\lccode32=`\\b \\lowercase\\expandafter{\\a\\relax}\\message{\\the\\c}\\lccode32=`\\x \\lowercase\\expandafter{\\a\\relax}\\message{\\the\\c}\\end",
        b"3\n! Missing number, treated as zero.\nl.2\n{the letter y}\n{the character 3}\n3\n",
        1,
    ),
    (
        b"\\def\\s{ }\\edef\\a{\\skip1=1pt\\s\\s lus2pt}\\uccode32=`\\P \\uppercase\\expandafter{\\a\\relax}\\message{\\the\\skip1}\\end",
        b"1.0pt plus 2.0pt\n",
        0,
    ),
    (
        b"\\catcode`\\~=13 \\uccode`\\~=`\\a \\def~{t}\\uppercase{\\def\\x{~}}\\message{\\meaning\\x}\\uppercase{\\toks0={~}}\\message{\\the\\toks0}\\message{~}\\end",
        b"macro:->a a t\n",
        0,
    ),
];

#[test]
fn characters_are_changed(rt: HostRuntime) {
    rows_hold(&rt, rt.alloc(), &CHANGED);
}

/// How many steps the commands take: the least `--steps` at which the run isn't stopped.
const COUNTED: [Counted; 8] = [
    Counted {
        text: b"\\toks1= {ab}\\end\n",
        under: ("--steps=39", b"! Step limit reached [steps=39].\n"),
        enough: ("--steps=40", b"", 0),
    },
    Counted {
        text: b"\\toks1\\relax{ab}\\end\n",
        under: ("--steps=38", b"! Step limit reached [steps=38].\n"),
        enough: ("--steps=39", b"", 0),
    },
    Counted {
        text: b"\\everypar={ab}\\end\n",
        under: ("--steps=36", b"! Step limit reached [steps=36].\n"),
        enough: ("--steps=37", b"", 0),
    },
    Counted {
        text: b"\\toksdef\\t=5 \\end\n",
        under: ("--steps=35", b"! Step limit reached [steps=35].\n"),
        enough: ("--steps=36", b"", 0),
    },
    Counted {
        text: b"\\toks1={ab}\\message{\\the\\toks1}\\end\n",
        under: ("--steps=45", b"ab\n! Step limit reached [steps=45].\n"),
        enough: ("--steps=46", b"ab\n", 0),
    },
    Counted {
        text: b"\\toks1={ab}\\the\\toks1 \\end\n",
        under: (
            "--steps=44",
            b"{the letter a}\n{the letter b}\n! Step limit reached [steps=44].\n",
        ),
        enough: ("--steps=45", b"{the letter a}\n{the letter b}\n", 0),
    },
    Counted {
        text: b"\\toks1={ab}\\toks2=\\expandafter{\\the\\toks1}\\end\n",
        under: ("--steps=52", b"! Step limit reached [steps=52].\n"),
        enough: ("--steps=53", b"", 0),
    },
    Counted {
        text: b"\\showthe\\toks1 \\end\n",
        under: (
            "--steps=34",
            b"> .\nl.2\n! Step limit reached [steps=34].\n",
        ),
        enough: ("--steps=35", b"> .\nl.2\n", 1),
    },
];

#[test]
fn lists_take_so_many_steps(rt: HostRuntime) {
    steps_hold(&rt, rt.alloc(), &COUNTED);
}

/// Lists within the least sizes: each with what it writes, and the words that are used in the end.
const HELD: [(&[u8], &[u8], u32); 15] = [
    (
        b"\\catcode`\\{=1 \\catcode`\\}=2\n\\toks0={xy}\\toks1=\\toks0 {\\toks0=\\toks1 \\global\\toks2=\\toks0 }\\end\n",
        b"",
        3,
    ),
    (
        b"\\catcode`\\{=1 \\catcode`\\}=2\n\\toks0={xy}\\toks0={}\\end\n",
        b"",
        0,
    ),
    (
        b"\\catcode`\\{=1 \\catcode`\\}=2\n\\toks0={xy}\\toks1=\\toks0 \\toks0={}\\end\n",
        b"",
        3,
    ),
    (
        b"\\catcode`\\{=1 \\catcode`\\}=2\n\\toks0={xy}\\toks0=\\toks0 \\toks0=\\toks1 \\end\n",
        b"",
        0,
    ),
    (
        b"\\catcode`\\{=1 \\catcode`\\}=2\n\\toks0={xy}{\\toks0={abc}\\end\n",
        IN_GROUP,
        7,
    ),
    (
        b"\\catcode`\\{=1 \\catcode`\\}=2\n\\toks0={xy}{\\toks0={abc}}\\end\n",
        b"",
        3,
    ),
    (
        b"\\catcode`\\{=1 \\catcode`\\}=2\n\\toks0={xy}{\\global\\toks0={abc}}\\end\n",
        b"",
        4,
    ),
    (
        b"\\catcode`\\{=1 \\catcode`\\}=2\n{\\toks0={xy}\\global\\toks1=\\toks0 }\\end\n",
        b"",
        3,
    ),
    (
        b"\\catcode`\\{=1 \\catcode`\\}=2\n\\toks0={xy}\\everypar=\\toks0 \\toksdef\\t=5 \\t\\everypar\\end\n",
        b"",
        3,
    ),
    (
        b"\\catcode`\\{=1 \\catcode`\\}=2\n\\toks0={xy}\\edef\\a{\\the\\toks0}\\end\n",
        b"",
        7,
    ),
    (
        b"\\catcode`\\{=1 \\catcode`\\}=2\n\\toks0={xy}\\toks1=\\expandafter{\\the\\toks0}\\end\n",
        b"",
        6,
    ),
    (
        b"\\catcode`\\{=1 \\catcode`\\}=2\n\\toks0={xy}\\the\\toks0 \\the\\toks0 \\end\n",
        b"",
        3,
    ),
    (
        b"\\catcode`\\{=1 \\catcode`\\}=2\n\\toks0={\\toks0={}\\relax\\relax}\\the\\toks0 \\end\n",
        b"",
        0,
    ),
    (
        b"\\catcode`\\{=1 \\catcode`\\}=2\n\\def\\a{x}\\toks0={\\a}\\let\\b=\\a\\end\n",
        b"",
        5,
    ),
    (
        b"\\catcode`\\{=1 \\catcode`\\}=2\n\\uppercase{\\toks0={ab}}\\lowercase{\\relax}\\end\n",
        b"",
        3,
    ),
];

#[test]
fn lists_are_held_once(rt: HostRuntime) {
    for (k, row) in HELD.iter().enumerate() {
        assert!(rt;
            words_at(rt.alloc(), &LEAST, (b"job", row.0), row.1, None) == Some(row.2),
            "row {k}"
        );
    }
}

/// Lists for which there is no room: each with the table that is full, its size, and the words that are used then.
const REFUSED: [(&[u8], Table, u32, u32); 7] = [
    (
        b"\\begingroup\\toks0=\\toks1 \\everypar=\\toks1 \\end\n",
        Table::SaveSize,
        2,
        0,
    ),
    (
        b"\\begingroup\\toks0=\\toks1 \\toksdef\\t=5 \\end\n",
        Table::SaveSize,
        2,
        0,
    ),
    (
        b"\\catcode`\\{=1 \\catcode`\\}=2\n\\toks0={xy}{\\toks0={xyz}\\toks1={zzz}\\end\n",
        Table::SaveSize,
        2,
        11,
    ),
    (
        b"\\catcode`\\{=1 \\catcode`\\}=2\n\\toks0={\\the\\toks0 x}\\the\\toks0 ",
        Table::InputStackSize,
        4,
        6,
    ),
    (
        b"\\catcode`\\{=1 \\catcode`\\}=2\n\\toks0={xxxxxxxxxxxxxxxxxxxxxxxxxxxxxxxxxxxxxxxxxxxxxxxxxxxxxxxxxxxx}%\n\\edef\\a{\\the\\toks0}\\end\n",
        Table::MainMemorySize,
        100,
        100,
    ),
    (
        b"\\catcode`\\{=1 \\catcode`\\}=2\n\\toks0={xxxxxxxxxxxxxxxxxxxxxxxxxxxxxxxxxxxxxxxxxxxxxxxxxx}%\n\\toks1=\\expandafter{\\the\\toks0}\\end\n",
        Table::MainMemorySize,
        100,
        100,
    ),
    (
        b"\\catcode`\\{=1 \\catcode`\\}=2\n\\uppercase{xxxxxxxxxxxxxxxxxxxxxxxxxxxxxxxxxxxxxxxxxxxxxxxxxx}\\end\n",
        Table::MainMemorySize,
        100,
        100,
    ),
];

#[test]
fn lists_without_room_are_refused(rt: HostRuntime) {
    for (k, row) in REFUSED.iter().enumerate() {
        assert!(rt;
            words_where_full(rt.alloc(), &LEAST, row.0, row.1, row.2) == Some(row.3),
            "row {k}"
        );
    }
}
